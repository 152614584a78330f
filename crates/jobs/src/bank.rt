//! The filter bank, whose channels follow the newest samples of their events.
//!
//! Channel i reads event i modulo the number of events. In each cycle its level moves towards the
//! newest sample of that event by the difference divided by a power of two, rounded down. The
//! output is the sum, the least and the greatest of all levels.

mod bank;
mod bank_job;
mod channel;
mod summary;

pub use bank::Bank;
pub use bank_job::NoGlobals;
pub use channel::Channel;
pub use summary::Summary;
