//! The results and errors of a job's calls.

use det_values::{Bytes, Container};
use std::alloc::AllocError;

/// A parameter that a job refuses, by its index, counted from 0.
///
/// A missing parameter has the index at which it is missing. For too many parameters the index is
/// that of the first surplus one.
#[derive(Clone, Copy, Debug, PartialEq, Eq, Drop)]
pub struct BadParam {
    pub index: u8,
}

/// Why a call of a job failed.
#[derive(Clone, Copy, Debug, PartialEq, Eq, Drop)]
pub enum JobFault {
    /// The job refuses the cycle, with a code that the job defines.
    Code(u32),
    /// Memory could not be allocated.
    OutOfMemory,
}

impl From<AllocError> for JobFault {
    ghost use Rattle.std.specs.Prelude.{◌≡◌};
    ghost use Rattle.job.specs.declared.job_results.JobFault.TheVariants as faults;

    ghost from_gives = { λ _ fault. fault ≡ faults.OutOfMemory };

    fn from(_: AllocError) -> JobFault {
        JobFault::OutOfMemory
    }
}

/// The globals and elements that a job starts with.
#[derive(Debug, Drop)]
pub struct JobStart<G, E> {
    pub globals: G,
    pub elements: Container<E>,
}

/// The globals after a finished cycle, and the cycle's output.
#[derive(Debug, Drop)]
pub struct Conclusion<G> {
    pub globals: G,
    pub output: Bytes,
}
