//! A probe that looks for the first refusal.
ghost use Rattle.std.specs.Prelude.{◌≡◌, None};
ghost use Rattle.probes.specs.Shipped.{refusal_life};

use crate::probe::{Probe, ProbeStep};
use crate::report_lines::refusal_report_line;
use det_values::{Bytes, Outcome, RefusedAt, RunFrame};
use std::alloc::{AllocError, Global};

/// Leaves at the first refused run, and reports its number and where it was refused.
#[derive(Debug, Drop)]
pub struct FirstRefusalProbe {
    seen: u32,
    at: Option<RefusedAt>,
}

impl FirstRefusalProbe {
    /// A probe that has seen no run.
    pub fn new() -> FirstRefusalProbe
        ensures { ⟦<FirstRefusalProbe as Probe>⟧.life result ≡ refusal_life 0 None }
    {
        FirstRefusalProbe { seen: 0, at: None }
    }
}

impl Probe for FirstRefusalProbe {
    ghost life = { λ p. refusal_life p.seen p.at };

    fn see(&mut self, run: &RunFrame) -> ProbeStep {
        self.seen = self.seen.saturating_add(1);
        match &run.outcome {
            Outcome::Refused(at) => {
                self.at = Some(*at);
                ProbeStep::Leave
            }
            Outcome::Finished { .. } => ProbeStep::Stay,
        }
    }

    fn report(&self, alloc: Global) -> Result<Bytes, AllocError> {
        refusal_report_line(alloc, self.seen, &self.at)
    }
}
