//! The guard, whose channels hold their last sample in range, and which reports what it corrected.
//!
//! Channel i reads event i modulo the number of events. A sample outside the range is corrected:
//! the channel keeps its value. The cycle is refused if one channel is corrected too often in a
//! row, or if too many are corrected in one cycle.

mod bounds;
mod channel;
mod guard;
mod guard_job;
mod report;

pub use bounds::Bounds;
pub use channel::Channel;
pub use guard::Guard;
pub use guard_job::{Corrections, Plan, Total};
