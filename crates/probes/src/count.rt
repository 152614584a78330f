//! A probe that counts runs.
ghost use Rattle.std.specs.Prelude.{◌≡◌};
ghost use Rattle.probes.specs.Shipped.{count_life};

use crate::probe::{Probe, ProbeStep};
use crate::report_lines::count_report_line;
use det_values::{Bytes, Outcome, RunFrame};
use std::alloc::{AllocError, Global};

/// Reports how many runs finished and how many were refused. It never leaves. The counts saturate.
#[derive(Debug, Drop)]
pub struct CountProbe {
    finished: u32,
    refused: u32,
}

impl CountProbe {
    /// A probe that has seen no run.
    pub fn new() -> CountProbe
        ensures { ⟦<CountProbe as Probe>⟧.life result ≡ count_life 0 0 }
    {
        CountProbe {
            finished: 0,
            refused: 0,
        }
    }
}

impl Probe for CountProbe {
    ghost life = { λ p. count_life p.finished p.refused };

    fn see(&mut self, run: &RunFrame) -> ProbeStep {
        match &run.outcome {
            Outcome::Finished { .. } => self.finished = self.finished.saturating_add(1),
            Outcome::Refused(_) => self.refused = self.refused.saturating_add(1),
        }
        ProbeStep::Stay
    }

    fn report(&self, alloc: Global) -> Result<Bytes, AllocError> {
        count_report_line(alloc, self.finished, self.refused)
    }
}
