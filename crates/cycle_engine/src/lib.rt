//! A job with all that it keeps between cycles, run cycle by cycle over any pool. It makes the
//! frame of each cycle, but reads and writes no files: other crates record, replay or check the
//! frames.
#![tactic(auto)]

mod cycle_fault;
mod desk;
mod draws;
mod element_bytes;
mod engine;
mod passes;
mod phases;
mod shared_place;

pub use desk::Desk;
pub use engine::Engine;
