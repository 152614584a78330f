//! The line of a verdict, and the text of a place.

mod verdict_lines;

pub use verdict_lines::{put_difference_place, verdict_line};
