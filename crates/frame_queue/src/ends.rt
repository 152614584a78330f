//! `Sender` and `Receiver`: the two ends of a queue.
ghost use Rattle.std.specs.Prelude.{◌≡◌};
ghost use Rattle.crossbeam_queue.specs.Passes.{view};
ghost use Rattle.frame_queue.specs.Order.{as_sender, as_receiver};

use crate::Row;
use crate::rule::QueueView;
use crossbeam_queue::Pass;

/// The right to send to one queue.
#[derive(Drop)]
pub struct Sender {
    pub(crate) pass: Pass<Row, QueueView>,
    ghost sends: { view pass ≡ as_sender (view pass) },
}

/// The right to take from one queue.
#[derive(Drop)]
pub struct Receiver {
    pub(crate) pass: Pass<Row, QueueView>,
    ghost takes: { view pass ≡ as_receiver (view pass) },
}
