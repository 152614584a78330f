//! A job for timing and tests, which does little more than draw random numbers.
//!
//! In each cycle each element draws 64 numbers and folds them into its state. The output is the
//! number of elements that ran. No shipped command knows this job.
#![tactic(auto)]

mod count;
mod heavy;
mod heavy_job;
mod state;

pub use heavy::Heavy;
pub use heavy_job::{NoGlobals, NoPlan};
pub use state::State;
