//! The deterministic client for C: what C keeps, and an export for each call.
//!
//! C keeps a client, a stream of random numbers and a window by value, and passes a pointer to it.
//! No export allocates memory, keeps a pointer, or shares anything with another call. So calls on
//! distinct objects may run at the same time. A refused call returns false, and changes nothing.
#![tactic(auto)]

mod c_state;
mod client;
mod det_blocks;
mod random;
mod window;

pub use det_blocks::{blocks_of_a_pass, each_element_once};

#[cfg(test)]
mod tests;
