//! Runs the inputs of a record again: to write the record, to check it, or to upgrade it.
#![tactic(auto)]

pub mod checker;
pub mod replayer;
pub mod upgrader;
