//! The program `det` as one call, over any shelf and any sinks: it dispatches a command to its
//! crate, prints help pages, and has laws of its exit status.
//!
//! `top` reads the arguments, runs their command and reports its answer. Each command's contract
//! says that it meets its outcome for the bytes under its names. `specs/Outcome.antt` joins these
//! outcomes to that of the arguments, and `specs/Promise.antt` defines the promise of `top`.
//! `laws` proves what a user may conclude from a status, and that the number of workers changes no
//! outcome.
#![tactic(auto)]

mod det_program;
mod det_usage;
pub mod laws;
mod pages;
mod record_commands;

pub use cli_answers::{Answer, Status};
pub use det_program::top;
pub use shipped_crews::Host;
