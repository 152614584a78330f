//! The errors of a cycle, and their outcomes.
ghost use Rattle.std.specs.Prelude.{◌≡◌, ◌<◌};
ghost use Rattle.job.specs.Passes.{RefusedBelow};
ghost use Rattle.cycle_engine.specs.PhaseResults.{PoolEnds, JobEnds, FaultOutcome};

use det_values::{Outcome, Phase, RefusedAt};
use job::{JobFault, PoolFault};
use std::alloc::AllocError;

/// Why a cycle failed.
#[derive(Clone, Copy, Debug, PartialEq, Eq, Drop)]
pub enum CycleFault {
    /// The job refuses the cycle at this place.
    Refused(RefusedAt),
    /// Memory could not be allocated.
    OutOfMemory,
}

impl From<AllocError> for CycleFault {
    ghost use Rattle.std.specs.Prelude.{◌≡◌};
    ghost use Rattle.cycle_engine.specs.declared.cycle_fault.CycleFault.TheVariants as faults;

    ghost from_gives = { λ _ fault. fault ≡ faults.OutOfMemory };

    fn from(_: AllocError) -> CycleFault {
        CycleFault::OutOfMemory
    }
}

impl CycleFault {
    /// The outcome of a cycle with this fault: a refusal has one, "out of memory" has none.
    pub(crate) fn outcome(self) -> Result<Outcome, AllocError>
        ensures { FaultOutcome self result }
    {
        match self {
            CycleFault::Refused(at) => Ok(Outcome::Refused(at)),
            CycleFault::OutOfMemory => Err(AllocError),
        }
    }
}

/// The fault of a cycle, from the pool's fault in a pass.
pub(crate) fn in_pool(pass: u8, fault: PoolFault) -> CycleFault
    requires pass { pass < 8 }
    requires element { RefusedBelow 65536 fault }
    ensures { PoolEnds pass fault result }
{
    match fault {
        PoolFault::Refused { element, code } => CycleFault::Refused(RefusedAt {
            phase: Phase::Pool,
            pass,
            element,
            code,
        }),
        PoolFault::OutOfMemory => CycleFault::OutOfMemory,
    }
}

/// The fault of a cycle, from a job's fault in a phase outside the pool.
pub(crate) fn in_job(phase: Phase, fault: JobFault) -> CycleFault
    ensures { JobEnds phase fault result }
{
    match fault {
        JobFault::Code(code) => CycleFault::Refused(RefusedAt {
            phase,
            pass: 0,
            element: 0,
            code,
        }),
        JobFault::OutOfMemory => CycleFault::OutOfMemory,
    }
}
