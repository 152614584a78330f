//! Reading a record from C: headers, and frames as offsets into C's bytes, which may come in
//! pieces. What is kept between two calls is a struct of C's. No call takes memory.
#![tactic(auto)]

mod export;
mod fault;
mod frame_comparison;
mod frame_parts;
mod frame_struct;
mod header;
mod number;
mod reading;
pub mod reading_c_laws;
mod spelled_elements;
#[cfg(test)]
mod tests;
