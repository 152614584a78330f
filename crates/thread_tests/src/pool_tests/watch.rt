//! A watch of the list job's elements, which counts them and holds one.
use std::sync::atomic::{AtomicBool, AtomicU64, Ordering};

/// The byte whose first run is held.
pub const HELD: u8 = 248;

/// The most turns for which a worker is held.
pub(crate) const MOST_TURNS: u32 = 100_000_000;

/// Counts the elements that are run, and holds the first run of a byte `HELD` until it is let go,
/// up to a limit.
#[derive(Drop)]
pub struct Watch {
    pub runs: AtomicU64,
    pub holds: AtomicBool,
    pub let_go: AtomicBool,
}

impl Watch {
    /// Records that a byte is run.
    pub(crate) fn see(&self, byte: u8) {
        self.runs.fetch_add(1, Ordering::SeqCst);
        if byte == HELD && !self.holds.swap(true, Ordering::SeqCst) {
            self.wait();
        }
    }

    /// Spins until the element is let go, up to a limit.
    fn wait(&self) {
        for _turn in 0..MOST_TURNS {
            if self.let_go.load(Ordering::SeqCst) {
                return;
            }
        }
    }
}
