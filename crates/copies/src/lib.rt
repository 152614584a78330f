//! Compares copies of a record side by side, item by item, up to the first place where they
//! differ.
#![tactic(auto)]

mod check_verdict;
mod copies;
mod copy_readers;
mod difference;
mod difference_verdict;
mod frame_differences;
mod item_differences;
pub mod laws;
mod row;
mod side_by_side;
mod verdict;
pub mod verdict_text;

pub use check_verdict::CheckVerdict;
pub use difference::Difference;
pub use frame_differences::first_frame_difference;
pub use item_differences::frame_difference;
pub use row::Row;
pub use side_by_side::compare;
pub use verdict::{BadCopy, Verdict};
