//! Records the run of a job over a stimulus.
#![tactic(auto)]

pub mod run_writer;
mod stimulus_run;

pub use stimulus_run::record_run;
