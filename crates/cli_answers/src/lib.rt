//! How a command of the program ends: its answer, its exit status and its line on standard error.
//! `specs/Outcome.antt` defines when a run of a command meets its outcome. Every command's contract
//! says so by `Meets`.
#![tactic(auto)]

mod answer;
mod line;
mod status;

pub use answer::{Answer, BadManifest, report_out_of_memory};
pub use line::{AnswerLine, write_line};
pub use status::Status;
