//! The type `Heavy`: the parameter of the heavy job.

ghost use Rattle.std.specs.Prelude.{◌≤◌};

/// A heavy job, by its parameter and the number of events, which it never reads.
#[derive(Debug, Drop)]
pub struct Heavy {
    pub(crate) elements: u32,
    pub(crate) events: u16,
    ghost few: { elements ≤ 65536 },
    ghost short: { events ≤ 65535 },
}
