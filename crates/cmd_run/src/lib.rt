//! The commands that take a manifest or have one built in: `record`, `demo`, `chain`, `sim` and
//! `needs`.
#![tactic(auto)]

pub mod chain;
pub mod chain_command;
pub mod needs_command;
pub mod record_command;
pub mod sim_command;
mod stimulus_visit;
