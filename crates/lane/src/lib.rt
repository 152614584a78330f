//! The program `det_lane` as one call, over any spawner of children and any sinks.
//!
//! A lane runs one program in 2 to 8 copies, as child processes, and compares their records while
//! they are written. `specs/Words.antt` defines its arguments, `specs/Outcome.antt` its outcome by
//! the outputs and exit statuses of its children, and `specs/Promise.antt` the promise of
//! `lane_top`.
#![tactic(auto)]

pub mod child_processes;
mod lane;
mod lane_answer;
mod lane_command;
mod lane_options;
mod lane_program;
mod lane_status;
mod lane_usage;
mod started_children;
mod verdict_or_answer;

pub use lane::Lane;
pub use lane_answer::LaneAnswer;
pub use lane_command::{LaneCommand, limit_of};
pub use lane_options::LaneOptions;
pub use lane_program::lane_top;
pub use lane_status::LaneStatus;
pub use lane_usage::{USAGE, VERSION};
