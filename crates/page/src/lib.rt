//! Records that a page in a browser lends: compared, printed as text, and counted cycle by cycle.
//! The page hands in bytes, and room for what a call gives. No call keeps anything.
#![tactic(auto)]

mod cell;
mod copy_comparison;
mod export;
mod lent_bytes;
mod lent_shelf;
mod record_print;
mod record_walk;
mod row_table;
mod run_difference;
mod run_rows;
#[cfg(test)]
mod tests;
