//! The command `check`: runs the inputs of a record again and reports the first place in which the
//! record departs from them.

mod check_lines;
mod check_record;
mod check_visit;

pub use check_record::check;
