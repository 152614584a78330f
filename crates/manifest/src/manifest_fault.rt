//! The faults of a manifest.
use crate::{Key, UnknownKey};
use std::alloc::AllocError;
use thiserror::Error;

/// The first fault of a manifest. Keys are checked in a fixed order, each for its presence, its
/// kind and its range. Keys that no table knows come after them, then the names of the events, and
/// last the name of the job.
#[derive(Clone, Copy, Debug, PartialEq, Eq, Drop, Error)]
pub enum ManifestFault {
    /// It has more than 65,536 bytes.
    #[error("too long")]
    TooLong,
    /// It is not a TOML document.
    #[error("not toml")]
    NotToml,
    /// A required key is absent.
    #[error("missing {0}")]
    Missing(Key),
    /// A value is of another kind than its key's.
    #[error("wrong kind {0}")]
    WrongKind(Key),
    /// A value is of its key's kind, but out of its range.
    #[error("out of range {0}")]
    OutOfRange(Key),
    /// A table doesn't know a key. This is a fault only for `read_strict_manifest`.
    #[error("unknown key")]
    UnknownKey(UnknownKey),
    /// The first event, counted from 0, whose name an earlier event has.
    #[error("duplicate event {0}")]
    DuplicateEvent(u16),
    /// No shipped job has the job's name.
    #[error("unknown job")]
    UnknownJob,
}

/// Why a manifest can't be read.
#[derive(Clone, Copy, Debug, PartialEq, Eq, Drop, Error)]
pub enum ManifestError {
    #[error("bad manifest: {0}")]
    Fault(ManifestFault),
    #[error("out of memory")]
    OutOfMemory,
}

impl From<ManifestFault> for ManifestError {
    ghost use Rattle.std.specs.Prelude.{◌≡◌};
    ghost use Rattle.manifest.specs.declared.manifest_fault.ManifestError.TheVariants.{Fault};

    ghost from_gives = { λ fault e. e ≡ Fault fault };

    fn from(fault: ManifestFault) -> ManifestError {
        ManifestError::Fault(fault)
    }
}

impl From<AllocError> for ManifestError {
    ghost use Rattle.std.specs.Prelude.{◌≡◌};
    ghost use Rattle.manifest.specs.declared.manifest_fault.ManifestError.TheVariants as error;

    ghost from_gives = { λ _ e. e ≡ error.OutOfMemory };

    fn from(_: AllocError) -> ManifestError {
        ManifestError::OutOfMemory
    }
}
