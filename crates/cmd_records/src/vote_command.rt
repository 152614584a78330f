//! The command `vote`: the record of the majority of several copies, or which copies dissent from
//! it.

mod text;
mod vote_records;

pub use vote_records::{vote, vote_dissent};
