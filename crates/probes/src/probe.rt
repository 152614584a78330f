//! The interface of a probe.
ghost use Rattle.std.specs.Prelude.{◌≡◌, ◌≤◌, ◌∷◌, [], length, IfOk, Some, None, ◌↔◌};
ghost use Rattle.probes.specs.Reports.{ProbeLife, Sees, leaves};

use det_values::{Bytes, RunFrame};
use std::alloc::{AllocError, Global};

/// Whether a probe stays for the next run.
#[derive(Clone, Copy, Debug, PartialEq, Eq, Drop)]
pub enum ProbeStep {
    Stay,
    Leave,
}

/// An observer of the runs of a record, one after another. It sees no run after the one at which it
/// leaves.
pub trait Probe: Drop {
    /// What it will report and at which run it will leave, as a function of the runs that it will
    /// see.
    ghost life: { Self → ProbeLife };

    /// Sees a run.
    fn see(&mut self, run: &RunFrame) -> ProbeStep
        ensures sees { Sees result (life self.old) (life self.new) run.now }
        ensures leaves { (result ≡ ProbeStep.Leave) ↔ (leaves (life self.old) (run.now ∷ [])
            ≡ Some 1) };

    /// The report on the runs that it saw, in at most 256 bytes.
    fn report(&self, alloc: Global) -> Result<Bytes, AllocError>
        ensures bytes { IfOk result (λ bytes. bytes ≡ (life self.now).report_after []) }
        ensures short { IfOk result (λ bytes. length bytes ≤ 256) }
        ensures stays { leaves (life self.now) [] ≡ None };
}
