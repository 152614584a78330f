//! The type `Bank`: the parameters of a filter bank.

ghost use Rattle.std.specs.Prelude.{◌≡◌, ◌≤◌};

/// A bank of filters, by its parameters and the number of events.
#[derive(Debug, Drop)]
pub struct Bank {
    pub(crate) channels: u32,
    pub(crate) shift: u32,
    pub(crate) events: u16,
    ghost few: { channels ≤ 65536 },
    ghost small: { shift ≤ 16 },
    ghost short: { events ≤ 65535 },
}

impl Bank {
    ghost use Rattle.jobs.specs.bank.Meaning.{event_of};

    /// The event that a channel reads; 0 if there are fewer than two.
    pub(crate) fn event_of(&self, channel: u32) -> u16
        ensures { result ≡ event_of self.now channel }
    {
        if self.events >= 2 {
            (channel % u32::from(self.events)) as u16
        } else {
            0
        }
    }
}
