//! A probe that measures the time between runs.
ghost use Rattle.std.specs.Prelude.{◌≡◌, None};
ghost use Rattle.probes.specs.Shipped.{gap_life, gap_between, greater};

use crate::probe::{Probe, ProbeStep};
use crate::report_lines::gap_report_line;
use det_values::{Bytes, RunFrame};
use std::alloc::{AllocError, Global};

/// Reports the longest time from one run to the next, in nanoseconds. Pairs in which a time is
/// unknown, or in which the second is earlier, don't count. It never leaves.
#[derive(Debug, Drop)]
pub struct GapProbe {
    /// The time of the last run.
    last: Option<u64>,
    gap: Option<u64>,
}

fn time_between_runs(before: Option<u64>, time: Option<u64>) -> Option<u64>
    ensures { result ≡ gap_between before time }
{
    time?.checked_sub(before?)
}

fn greater_gap(gap: Option<u64>, other: Option<u64>) -> Option<u64>
    ensures { result ≡ greater gap other }
{
    match (gap, other) {
        (Some(gap), Some(other)) => Some(gap.max(other)),
        (Some(gap), None) => Some(gap),
        (None, other) => other,
    }
}

impl GapProbe {
    /// A probe that has seen no run.
    pub fn new() -> GapProbe
        ensures { ⟦<GapProbe as Probe>⟧.life result ≡ gap_life None None }
    {
        GapProbe {
            last: None,
            gap: None,
        }
    }
}

impl Probe for GapProbe {
    ghost life = { λ p. gap_life p.last p.gap };

    fn see(&mut self, run: &RunFrame) -> ProbeStep {
        let time = run.input.time;
        self.gap = greater_gap(self.gap, time_between_runs(self.last, time));
        self.last = time;
        ProbeStep::Stay
    }

    fn report(&self, alloc: Global) -> Result<Bytes, AllocError> {
        gap_report_line(alloc, self.gap)
    }
}
