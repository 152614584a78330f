//! `SpawnFailed`, the error of a spawner.

/// A child couldn't be started, read or waited for, or it ended without an exit status. The reason
/// isn't kept.
#[derive(Clone, Copy, Debug, PartialEq, Eq, Drop)]
pub struct SpawnFailed;
