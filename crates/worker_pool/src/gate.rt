//! Gates: a hook before a worker's first block, for tests, and the wait of an idle thread.
use std::alloc::Global;
use std::sync::Arc;
use std::sync::atomic::{AtomicBool, Ordering};
use std::time::{Clock, Duration};
use std::{hint, thread};

/// The number of looks for work after which an idle thread yields between two looks.
const BUSY_LOOKS: u32 = 1_000;

/// The number of looks after which a thread of `NapGate` sleeps between two looks: a few
/// milliseconds.
const WAKEFUL_LOOKS: u32 = 10_000;

/// The microseconds that it sleeps.
const NAP: u64 = 200;

/// A hook of a crew's workers. No contract depends on it.
pub trait Gate: Drop {
    /// Each worker calls it once in a pass, with its number counted from 0.
    fn enter(&self, worker: u32);

    /// A kept thread calls it when it finds no work, with the number of looks in vain before. By
    /// default it yields to other threads, but keeps a processor busy if no other thread needs it.
    fn rest(&self, looks: u32) {
        if looks < BUSY_LOOKS {
            hint::spin_loop();
        } else {
            thread::yield_now();
        }
    }
}

/// A shared gate is passed as the gate itself is. So an owner that is kept can look at the gate
/// afterwards.
impl<G: Gate> Gate for Arc<G, Global> {
    fn enter(&self, worker: u32) {
        (**self).enter(worker);
    }

    fn rest(&self, looks: u32) {
        (**self).rest(looks);
    }
}

/// Any gate, with its type erased. So what starts a crew need not be generic in the gate.
#[derive(Drop)]
pub struct AnyGate {
    gate: Box<dyn Gate + Send + Sync>,
}

impl AnyGate {
    /// Erases the type of a gate.
    pub fn new(gate: Box<dyn Gate + Send + Sync>) -> AnyGate {
        AnyGate { gate }
    }
}

impl Gate for AnyGate {
    fn enter(&self, worker: u32) {
        self.gate.enter(worker);
    }

    fn rest(&self, looks: u32) {
        self.gate.rest(looks);
    }
}

/// Lets each worker through at once.
#[derive(Clone, Copy, Debug, Drop)]
pub struct NoGate;

impl Gate for NoGate {
    fn enter(&self, _worker: u32) {}
}

/// Lets each worker through at once. A thread that is idle for a few milliseconds sleeps between
/// its looks, so it uses only a small part of a processor.
#[derive(Drop)]
pub struct NapGate<R: Clock + Drop> {
    pub clock: R,
}

impl<R: Clock + Drop> Gate for NapGate<R> {
    fn enter(&self, _worker: u32) {}

    fn rest(&self, looks: u32) {
        if looks < BUSY_LOOKS {
            hint::spin_loop();
        } else if looks < WAKEFUL_LOOKS {
            thread::yield_now();
        } else {
            thread::sleep(&self.clock, Duration::from_micros(NAP));
        }
    }
}

/// The most turns for which a worker waits for the other.
const MOST_TURNS: u32 = 100_000_000;

/// Holds the workers 0 and 1 until each has seen the other, up to a limit. It is for tests.
#[derive(Drop)]
pub struct MeetGate {
    first_came: AtomicBool,
    second_came: AtomicBool,
    first_saw: AtomicBool,
    second_saw: AtomicBool,
}

impl MeetGate {
    /// A gate through which neither worker has come.
    pub fn new() -> MeetGate {
        MeetGate {
            first_came: AtomicBool::new(false),
            second_came: AtomicBool::new(false),
            first_saw: AtomicBool::new(false),
            second_saw: AtomicBool::new(false),
        }
    }

    /// Whether each of the two saw the other come.
    pub fn met(&self) -> bool {
        self.first_saw.load(Ordering::SeqCst) && self.second_saw.load(Ordering::SeqCst)
    }
}

/// Signals that one worker came, and waits for the other. Only the first call waits.
fn meet(mine: &AtomicBool, other: &AtomicBool, saw: &AtomicBool) {
    if mine.swap(true, Ordering::SeqCst) {
        return;
    }
    for _turn in 0..MOST_TURNS {
        if other.load(Ordering::SeqCst) {
            saw.store(true, Ordering::SeqCst);
            return;
        }
    }
}

impl Gate for MeetGate {
    fn enter(&self, worker: u32) {
        match worker {
            0 => meet(&self.first_came, &self.second_came, &self.first_saw),
            1 => meet(&self.second_came, &self.first_came, &self.second_saw),
            _ => {}
        }
    }
}
