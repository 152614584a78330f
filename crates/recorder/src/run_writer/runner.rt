//! `Runner`: a recording with its pool, as an operation on two runs needs them.
use crate::run_writer::Recording;
use job::Job;

/// A run whose record is being written, and the pool for its passes.
#[derive(Drop)]
pub struct Runner<J: Job, P> {
    pub recording: Recording<J>,
    pub pool: P,
}
