//! The command `show`: a record as text, and reports of its runs.

mod show_record;

pub use show_record::show;
