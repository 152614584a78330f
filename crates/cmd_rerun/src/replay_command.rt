//! The command `replay`: runs the inputs of a record again and writes the record that they give.

pub use crate::rewrite::replay;
