//! The commands that write a record anew: a crew runs its inputs again, and the record of that run
//! is written.

mod record_rest;
mod rewrite_record;
mod rewriter;

pub use rewrite_record::{replay, upgrade};
