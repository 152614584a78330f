//! The program `det_twin` as one call, over any shelf and any sinks.
//!
//! Twins run one client in 2 to 8 copies in one process, each on a thread of its own. Their frames
//! are compared while they run. `specs/Words.antt` defines the program's arguments,
//! `specs/Outcome.antt` its outcome by the bytes under their names, and `specs/Promise.antt` the
//! promise of `twin_top`.
#![tactic(auto)]

mod find_verdict;
mod inputs;
mod options;
mod text_inputs;
mod twin_answer;
mod twin_command;
mod twin_program;
mod twin_usage;

pub use cli_answers::Status as TwinStatus;
pub use options::{Flip, TwinOptions, Twins};
pub use twin_answer::TwinAnswer;
pub use twin_command::TwinCommand;
pub use twin_program::twin_top;
pub use twin_usage::{USAGE, VERSION};
