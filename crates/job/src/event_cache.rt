//! Windows of events: the latest samples of each event, fixed during a cycle. Samples that arrive
//! in a cycle wait for the next one.

mod cache;
mod rings;

pub use cache::EventCache;
