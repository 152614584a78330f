//! A gate that holds one worker until something happens.
use crate::pool_tests::watch::{MOST_TURNS, Watch};
use std::alloc::Global;
use std::sync::Arc;
use std::sync::atomic::{AtomicBool, AtomicU64, Ordering};
use std::thread;
use worker_pool::Gate;

/// The event that a gate waits for.
#[derive(Clone, Copy, Drop)]
pub(crate) enum Wanted {
    /// This number of elements was run.
    Runs(u64),
    /// A kept thread found no work after this number of elements was run: it has replied.
    Rest(u64),
    /// An element is held.
    Hold,
    /// The held element is let go.
    LetGo,
}

/// Holds one worker until the wanted event comes, up to a limit, and records whether it came.
#[derive(Drop)]
pub(crate) struct HoldGate {
    pub(crate) watch: Arc<Watch, Global>,
    pub(crate) worker: u32,
    pub(crate) wanted: Wanted,
    pub(crate) came: AtomicBool,
    /// The number of elements run when a kept thread last found no work.
    pub(crate) rested: AtomicU64,
}

impl HoldGate {
    fn is_there(&self) -> bool {
        match self.wanted {
            Wanted::Runs(count) => self.watch.runs.load(Ordering::SeqCst) == count,
            Wanted::Rest(count) => self.rested.load(Ordering::SeqCst) == count,
            Wanted::Hold => self.watch.holds.load(Ordering::SeqCst),
            Wanted::LetGo => self.watch.let_go.load(Ordering::SeqCst),
        }
    }
}

impl Gate for HoldGate {
    fn enter(&self, worker: u32) {
        if worker != self.worker {
            return;
        }
        for _turn in 0..MOST_TURNS {
            if self.is_there() {
                self.came.store(true, Ordering::SeqCst);
                return;
            }
        }
    }

    fn rest(&self, _looks: u32) {
        let runs = self.watch.runs.load(Ordering::SeqCst);
        self.rested.store(runs, Ordering::SeqCst);
        thread::yield_now();
    }
}
