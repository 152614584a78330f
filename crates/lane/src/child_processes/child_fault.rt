//! `ChildFault`, what the system told of a child that failed.
use std::io::Error;
use std::process::ExitStatus;

/// Why there is no child, no output or no exit status, as far as the system tells.
#[derive(Drop)]
pub enum ChildFault {
    /// It couldn't be started.
    NotStarted(Error),
    /// It wrote nothing for as long as the limit. Children are counted from 0.
    Late(u32),
    /// It ended by itself, and not with a number: a signal ended it.
    NoNumber(u32, ExitStatus),
}
