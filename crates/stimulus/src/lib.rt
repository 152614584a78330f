//! The stimulus: a text with the time and the samples of each cycle, read line by line in pieces,
//! or generated from a number.
#![tactic(auto)]

mod decimal;
pub mod first_line;
mod generated_text;
mod line_place;
pub mod parse_line;
mod parser;
pub mod slot_reader;
mod state;
mod stimulus_item;
pub mod stimulus_laws;
mod wanted;

pub use generated_text::generate_stimulus;
pub use line_place::LinePlace;
pub use parser::StimulusParser;
pub use stimulus_item::{StimulusError, StimulusFault, StimulusItem};
pub use wanted::Wanted;
