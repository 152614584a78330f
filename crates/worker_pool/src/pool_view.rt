//! The ghost views of seats: the facts that a worker knows of a pass. No value of these types
//! exists at run time.
use std::collections::LinkedList;

/// The state of a claimed block.
#[derive(Clone, Copy)]
pub enum Mark {
    /// Its elements are being run, or were given up for lack of memory.
    Open,
    /// None of its elements refused.
    Finished,
    /// One of its elements refused.
    Reported,
    /// It was not run, since a block below it refused.
    Skipped,
}

/// A claimed block.
#[derive(Clone, Copy)]
pub struct PoolEntry {
    pub block: u64,
    pub mark: Mark,
}

/// The view of a seat.
pub struct PoolView {
    /// The blocks that were claimed with this seat or with one joined to it.
    pub entries: LinkedList<PoolEntry>,
    /// Each block below this number was tried with this seat or with one joined to it.
    pub seen: u64,
    /// The number of workers for which the seat may be split.
    pub shares: u64,
}
