//! `Pace`: how the two ends of a queue wait for each other. It decides only how long a thread
//! waits, so no contract depends on it.
ghost use Rattle.std.specs.Prelude.{◌≡◌};

use std::sync::Wait;
use std::sync::atomic::{AtomicBool, AtomicU64, Ordering};
use std::thread::Parker;
use std::{hint, thread};

/// The number of looks after which a waiting end sleeps until the other wakes it.
const BUSY_LOOKS: u32 = 200;

/// The number of looks after which a receiver stops waiting for a sender that hasn't come.
const PATIENT_LOOKS: u32 = 2_000;

/// One end of a queue: whether its thread is at work, and where that thread sleeps.
#[derive(Drop)]
struct End {
    has_come: AtomicBool,
    has_left: AtomicBool,
    sleep: Parker,
}

impl End {
    fn new() -> End {
        End {
            has_come: AtomicBool::new(false),
            has_left: AtomicBool::new(false),
            sleep: Parker::new(),
        }
    }

    fn has_come(&self) -> bool {
        self.has_come.load(Ordering::SeqCst)
    }

    fn has_left(&self) -> bool {
        self.has_left.load(Ordering::SeqCst)
    }

    fn is_at_work(&self) -> bool {
        self.has_come() && !self.has_left()
    }

    fn reset(&self) {
        self.has_come.store(false, Ordering::SeqCst);
        self.has_left.store(false, Ordering::SeqCst);
    }

    fn come(&self) {
        self.has_come.store(true, Ordering::SeqCst);
    }

    fn leave(&self) {
        self.has_left.store(true, Ordering::SeqCst);
    }

    /// Waits a little for the other end. If the other end has come, it wakes this one when it has
    /// sent or taken enough rows, and when it leaves.
    fn pause<R: Wait>(&self, rt: &R, other: &End, looks: u32) {
        if looks < BUSY_LOOKS {
            hint::spin_loop();
        } else if other.has_come() {
            self.sleep.park(rt);
        } else {
            thread::yield_now();
        }
    }
}

/// How the two ends of a queue wait for each other. Each runs on a thread of its own, or one after
/// the other. Results here say only how long to wait, so no contract depends on them.
///
/// Each end reports when it comes to the queue and when it leaves. The other doesn't wait for an
/// end that has left. `reset` forgets that both came and left, between two turns.
#[derive(Drop)]
pub struct Pace {
    /// The number of places in the queue.
    places: u64,
    /// The number of rows in the queue, counting a row that is being sent or taken.
    held: AtomicU64,
    sender: End,
    receiver: End,
    is_refused: AtomicBool,
}

impl Pace {
    /// Ends that haven't come yet, of an empty queue with this number of places.
    pub(crate) fn new(places: u64) -> Pace
        ensures { result.places ≡ places }
    {
        Pace {
            places,
            held: AtomicU64::new(0),
            sender: End::new(),
            receiver: End::new(),
            is_refused: AtomicBool::new(false),
        }
    }

    /// Forgets that the ends came and left. Call it only while neither is at work.
    pub fn reset(&self) {
        self.sender.reset();
        self.receiver.reset();
    }

    /// Reports that the sender's thread is at work from now on.
    pub fn sender_comes(&self) {
        self.sender.come();
    }

    /// Reports that the sender's thread sends no more in this turn. A receiver that waits for it is
    /// woken.
    pub fn sender_leaves(&self) {
        self.sender.leave();
        self.receiver.sleep.unpark();
    }

    /// Reports that the receiver's thread is at work from now on.
    pub fn receiver_comes(&self) {
        self.receiver.come();
    }

    /// Reports that the receiver's thread takes no more in this turn. A sender that waits for it is
    /// woken.
    pub fn receiver_leaves(&self) {
        self.receiver.leave();
        self.sender.sleep.unpark();
    }

    /// Reports that no more rows are wanted, in this turn and in all later ones. A sender that
    /// waits sees it when the receiver leaves.
    pub fn refuse(&self) {
        self.is_refused.store(true, Ordering::SeqCst);
    }

    /// Counts a row that is sent next.
    pub(crate) fn begin_send(&self) {
        self.held.fetch_add(1, Ordering::SeqCst);
    }

    /// Wakes a sleeping receiver once a quarter of the places is taken, so once for several rows. A
    /// sender that leaves wakes it for fewer.
    pub(crate) fn end_send(&self) {
        if self.held.load(Ordering::SeqCst) >= self.places / 4 {
            self.receiver.sleep.unpark();
        }
    }

    /// Wakes a sleeping sender once half of the places are free.
    pub(crate) fn end_take(&self) {
        if self.held.fetch_sub(1, Ordering::SeqCst) <= self.places / 2 {
            self.sender.sleep.unpark();
        }
    }

    fn holds_row(&self) -> bool {
        self.held.load(Ordering::SeqCst) > 0
    }

    fn is_full(&self) -> bool {
        self.held.load(Ordering::SeqCst) >= self.places
    }

    /// Waits for a row, and returns whether there is one. It waits while the sender is at work. For
    /// a sender that hasn't come it waits a limited number of looks.
    pub fn wait_for_row<R: Wait>(&self, rt: &R) -> bool {
        let mut looks = 0u32;
        for _ in rt.forever() {
            if self.holds_row() {
                return true;
            }
            if self.sender.has_left() || (looks >= PATIENT_LOOKS && !self.sender.has_come()) {
                return self.holds_row();
            }
            self.receiver.pause(rt, &self.sender, looks);
            looks = looks.saturating_add(1);
        }
        unreachable!()
    }

    /// Waits for a place, and returns whether there is one for a row that is wanted. It waits only
    /// while the receiver is at work.
    pub fn wait_for_place<R: Wait>(&self, rt: &R) -> bool {
        let mut looks = 0u32;
        for _ in rt.forever() {
            if self.is_refused.load(Ordering::SeqCst) {
                return false;
            }
            if !self.is_full() {
                return true;
            }
            if !self.receiver.is_at_work() {
                return !self.is_full();
            }
            self.sender.pause(rt, &self.receiver, looks);
            looks = looks.saturating_add(1);
        }
        unreachable!()
    }
}
