//! A record for C, written part by part: each call puts the bytes of one part where C says. Between
//! two calls only the record's place is kept, and C keeps it. No call asks for memory.
#![tactic(auto)]

mod cause;
mod export;
mod part;
mod put;
mod put_frame;
mod put_header;
mod ranges;
pub mod record_c_laws;
mod run;
mod run_export;
#[cfg(test)]
mod tests;
mod write_part;
