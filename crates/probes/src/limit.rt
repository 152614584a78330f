//! A probe that leaves after a number of runs.
ghost use Rattle.std.specs.Prelude.{◌≡◌, ◌≤◌};
ghost use Rattle.probes.specs.Shipped.{limit_life};

use crate::probe::{Probe, ProbeStep};
use crate::report_lines::limit_report_line;
use det_values::{Bytes, Outcome, RunFrame};
use std::alloc::{AllocError, Global};

/// Leaves at run number `most`, counted from 1. Reports how many runs it saw, and how many of them
/// were refused.
#[derive(Debug, Drop)]
pub struct LimitProbe {
    most: u32,
    seen: u32,
    refused: u32,
}

impl LimitProbe {
    /// A probe that has seen no run.
    pub fn new(most: u32) -> LimitProbe
        requires { 1 ≤ most }
        ensures { ⟦<LimitProbe as Probe>⟧.life result ≡ limit_life most 0 0 }
    {
        LimitProbe {
            most,
            seen: 0,
            refused: 0,
        }
    }
}

impl Probe for LimitProbe {
    ghost life = { λ p. limit_life p.most p.seen p.refused };

    fn see(&mut self, run: &RunFrame) -> ProbeStep {
        self.seen = self.seen.saturating_add(1);
        if let Outcome::Refused(_) = &run.outcome {
            self.refused = self.refused.saturating_add(1);
        }
        if self.seen >= self.most {
            return ProbeStep::Leave;
        }
        ProbeStep::Stay
    }

    fn report(&self, alloc: Global) -> Result<Bytes, AllocError> {
        limit_report_line(alloc, self.seen, self.refused)
    }
}
