//! Tests of two threads that wait for each other: two copies of a run, and the two ends of a queue.

#[cfg(test)]
mod queue;
#[cfg(test)]
mod two_copies;
