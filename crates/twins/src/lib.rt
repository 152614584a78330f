//! Runs copies of a run in the threads of one process, and compares them while they run.
#![tactic(auto)]

mod close_queues;
mod copies_run;
mod exchange;
mod flip_tamper;
pub mod laws;
mod push_item;
mod rounds;
mod sides;
mod taker;
mod tamper;
mod threads;
mod twin;
mod twin_copies;
mod twin_frames;
mod twin_rows;
mod twin_run;

pub use copies_run::run_twins;
pub use flip_tamper::FlipTamper;
pub use tamper::{NoTamper, Tamper};
pub use twin_run::{Inputs, TwinRun};
