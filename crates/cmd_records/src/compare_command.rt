//! The command `compare`: whether copies of a record are equal, or the first place where they
//! differ.

mod compare_records;

pub use compare_records::compare;
