//! The deterministic client of one process: its activations, the times of a cycle, the seed, its
//! own random numbers, and the keys of the numbers of elements.
//!
//! Its contracts are about the whole list of calls that were made on it, so two clients with the
//! same calls return the same results.
#![tactic(auto)]

mod activation;
mod client;
pub mod element_random;

pub use activation::{Activation, Next};
pub use client::{Client, MOST_CYCLES, NotAvailable};
