//! Tests of the pool on real threads. Its job has parts that don't commute, gates hold workers, and
//! the results are compared with those of one thread.

mod list_job;
mod watch;

pub use list_job::{ListJob, Met};
pub use watch::{HELD, Watch};

#[cfg(test)]
mod gates;
#[cfg(test)]
mod passes;
#[cfg(test)]
mod tests;
