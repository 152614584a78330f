//! Reads a stimulus from a slot, block by block.

mod stimulus_reader;

pub use stimulus_reader::StimulusReader;
