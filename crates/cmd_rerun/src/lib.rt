//! The commands that run the inputs of a record again: `replay`, `check` and `upgrade`.
#![tactic(auto)]

pub mod check_command;
pub mod replay_command;
mod rewrite;
pub mod upgrade_command;
