//! Votes copies of a record into the record of their majority, row by row as they are read.

mod majority;
mod outcome;
mod vote_copies;
mod voter_rows;
mod voters;

pub use outcome::{Dissent, Dissenter, NoMajority, Vote};
pub use vote_copies::vote;
