//! A bounded queue of rows between two threads, and the rest of it once it is closed.
//!
//! Rows go from one thread to another in order, each of them once. While both threads run, neither
//! end knows the other's list: the sender knows what it sent, and the receiver what it took. Once
//! the queue is closed it is known that the rows taken, followed by the rows left, are the rows
//! sent.
#![tactic(auto)]

mod ends;
mod pace;
mod queue;
mod rest;
mod row;
mod rule;

pub use ends::{Receiver, Sender};
pub use pace::Pace;
pub use queue::FrameQueue;
pub use rest::Rest;
pub use row::Row;
