//! The errors of calls that read or write: `Failure` for IO and memory, and `Stopped` for calls
//! that may also refuse their input.
use crate::{ShelfFailed, SinkFailed};
use std::alloc::AllocError;

/// Why a call that reads or writes failed.
#[derive(Clone, Copy, Debug, PartialEq, Eq, Drop)]
pub enum Failure {
    /// The shelf failed to open or read.
    Read,
    /// The sink failed to write.
    Write,
    /// Memory could not be allocated.
    OutOfMemory,
}

/// Why a call that checks its input stopped: it refuses the input, or it failed.
#[derive(Clone, Copy, Debug, PartialEq, Eq, Drop)]
pub enum Stopped<E> {
    Refused(E),
    Failed(Failure),
}

impl From<SinkFailed> for Failure {
    ghost use Rattle.std.specs.Prelude.{◌≡◌};
    ghost use Rattle.det_io.specs.declared.failure.Failure.TheVariants.{Write};

    ghost from_gives = { λ _ failure. failure ≡ Write };

    fn from(_: SinkFailed) -> Failure {
        Failure::Write
    }
}

impl From<AllocError> for Failure {
    ghost use Rattle.std.specs.Prelude.{◌≡◌};
    ghost use Rattle.det_io.specs.declared.failure.Failure.TheVariants.{OutOfMemory};

    ghost from_gives = { λ _ failure. failure ≡ OutOfMemory };

    fn from(_: AllocError) -> Failure {
        Failure::OutOfMemory
    }
}

impl<E> From<Failure> for Stopped<E> {
    ghost use Rattle.std.specs.Prelude.{◌≡◌};
    ghost use Rattle.det_io.specs.declared.failure.Stopped.TheVariants.{Failed};

    ghost from_gives = { λ failure stopped. stopped ≡ Failed failure };

    fn from(failure: Failure) -> Stopped<E> {
        Stopped::Failed(failure)
    }
}

impl<E> From<ShelfFailed> for Stopped<E> {
    ghost use Rattle.std.specs.Prelude.{◌≡◌};
    ghost use Rattle.det_io.specs.declared.failure.Failure.TheVariants.{Read};
    ghost use Rattle.det_io.specs.declared.failure.Stopped.TheVariants.{Failed};

    ghost from_gives = { λ _ stopped. stopped ≡ Failed Read };

    fn from(_: ShelfFailed) -> Stopped<E> {
        Stopped::Failed(Failure::Read)
    }
}

impl<E> From<SinkFailed> for Stopped<E> {
    ghost use Rattle.std.specs.Prelude.{◌≡◌};
    ghost use Rattle.det_io.specs.declared.failure.Failure.TheVariants.{Write};
    ghost use Rattle.det_io.specs.declared.failure.Stopped.TheVariants.{Failed};

    ghost from_gives = { λ _ stopped. stopped ≡ Failed Write };

    fn from(_: SinkFailed) -> Stopped<E> {
        Stopped::Failed(Failure::Write)
    }
}

impl<E> From<AllocError> for Stopped<E> {
    ghost use Rattle.std.specs.Prelude.{◌≡◌};
    ghost use Rattle.det_io.specs.declared.failure.Failure.TheVariants.{OutOfMemory};
    ghost use Rattle.det_io.specs.declared.failure.Stopped.TheVariants.{Failed};

    ghost from_gives = { λ _ stopped. stopped ≡ Failed OutOfMemory };

    fn from(_: AllocError) -> Stopped<E> {
        Stopped::Failed(Failure::OutOfMemory)
    }
}
