//! The type `Guard`: the parameters of a guard.

ghost use Rattle.std.specs.Prelude.{◌≡◌, ◌≤◌};

use crate::guard::Bounds;

/// A guard of channels, by its parameters and the number of events.
#[derive(Debug, Drop)]
pub struct Guard {
    pub(crate) channels: u32,
    pub(crate) bounds: Bounds,
    pub(crate) limit: u16,
    pub(crate) most: u32,
    pub(crate) events: u16,
    ghost few: { channels ≤ 65536 },
    ghost positive: { 1 ≤ limit },
    ghost small: { limit ≤ 1000 },
    ghost bounded: { most ≤ 65536 },
    ghost short: { events ≤ 65535 },
}

impl Guard {
    ghost use Rattle.jobs.specs.guard.Meaning.{event_of};

    /// The event that a channel reads; 0 if there are no events.
    pub(crate) fn event_of(&self, channel: u32) -> u16
        ensures { result ≡ event_of self.now channel }
    {
        if self.events == 0 {
            0
        } else {
            (channel % u32::from(self.events)) as u16
        }
    }
}
