//! Writes the record of a run frame by frame (`Recording`), from whatever gives its inputs: a
//! stimulus, another record, or another client in a chain.

mod counts;
mod frame_parts;
mod recording;
mod run_frames;
mod runner;

pub use counts::Counts;
pub use recording::Recording;
pub use runner::Runner;
