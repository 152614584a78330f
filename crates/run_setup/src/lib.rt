//! Reads what a run needs before it starts: a manifest whose parameters its job takes, or the
//! header of a record.
#![tactic(auto)]

mod manifest_check;
pub mod recorded_run;
mod setup;

pub use setup::read_setup;
