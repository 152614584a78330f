//! The type `Cloud`: the parameters of a particle cloud.

ghost use Rattle.std.specs.Prelude.{◌≡◌, ◌≤◌};

/// A cloud of particles, by its parameters.
#[derive(Debug, Drop)]
pub struct Cloud {
    pub(crate) particles: u32,
    pub(crate) spread: u32,
    pub(crate) reseed: u32,
    pub(crate) far: u64,
    pub(crate) events: u16,
    ghost few: { particles ≤ 65536 },
    ghost some_spread: { 1 ≤ spread },
    ghost small_spread: { spread ≤ 1000000 },
    ghost short: { events ≤ 65535 },
}

impl Cloud {
    ghost use Rattle.jobs.specs.cloud.Meaning.{reseeds};

    /// Whether the job draws a new seed in this cycle.
    pub(crate) fn reseeds(&self, cycle: u32) -> bool
        ensures { result ≡ reseeds self.now cycle }
    {
        self.reseed != 0 && cycle % self.reseed == 0
    }
}
