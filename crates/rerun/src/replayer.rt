//! Writes the record that the inputs of a record give now. It compares nothing.

mod record_inputs;
mod replay;

pub use record_inputs::next_input;
pub use replay::{empty_input, replay_run};
