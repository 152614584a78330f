//! `Twin`: one copy of a run.

use cycle_engine::Engine;
use frame_queue::Sender;
use job::Job;

/// A copy of a run: its engine, and its end of its queue.
#[derive(Drop)]
pub(crate) struct Twin<J: Job> {
    pub(crate) engine: Engine<J>,
    pub(crate) sender: Sender,
    /// The number of the copy, counted from 0.
    pub(crate) copy: u32,
    /// The number of rows that it sent.
    pub(crate) number: u32,
    /// Whether it ran out of memory. It then sends nothing more.
    pub(crate) failed: bool,
}
