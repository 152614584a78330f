//! The rule of a queue, and what an end knows after each step. The types here are names for
//! contracts; no value of them is made.
use crate::Row;
use crossbeam_queue::protocol::{Join, Lesson, Outcome, Protocol, Split};
use std::collections::LinkedList;

/// What an end knows. No value of it is made.
pub struct QueueView {
    /// Whether the end may send.
    pub sends: bool,
    /// Whether the end may take.
    pub takes: bool,
    /// The rows that it sent.
    pub sent: LinkedList<Row>,
    /// The rows that it took.
    pub taken: LinkedList<Row>,
}

/// The rule: the rows taken, followed by the rows in the queue, are the rows sent.
pub struct OrderRule;

impl Protocol<Row, QueueView> for OrderRule {
    ghost use Rattle.frame_queue.specs.Order.{IsInOrder, beginning};

    ghost holds = { IsInOrder };

    ghost first = { beginning };
}

/// Splits off the right to take as an end of its own, and joins it again.
pub struct Roles;

impl Split<QueueView> for Roles {
    ghost use Rattle.frame_queue.specs.Order.{as_sender, as_receiver};

    ghost left = { as_sender };

    ghost right = { as_receiver };
}

impl Join<QueueView> for Roles {
    ghost use Rattle.frame_queue.specs.Order.{with_receiver, no_rights};

    ghost both = { with_receiver };

    ghost spent = { no_rights };
}

/// Sends a row.
pub struct Sends;

impl Outcome<Row, QueueView> for Sends {
    ghost use Rattle.frame_queue.specs.Order.{Sent};

    ghost then = { Sent };
}

/// Takes a row.
pub struct Takes;

impl Outcome<Row, QueueView> for Takes {
    ghost use Rattle.frame_queue.specs.Order.{Taken};

    ghost then = { Taken };
}

/// Learns which rows the queue holds. Only an end with both rights knows that.
pub struct Total;

impl Lesson<Row, QueueView> for Total {
    ghost use Rattle.frame_queue.specs.Order.{IsTotal};

    ghost fact = { IsTotal };
}

/// Takes the first row of the queue, by an end with both rights.
pub struct Drains;

impl Outcome<Row, QueueView> for Drains {
    ghost use Rattle.frame_queue.specs.Order.{Drained};

    ghost then = { Drained };
}

impl Lesson<Row, QueueView> for Drains {
    ghost use Rattle.frame_queue.specs.Order.{IsTotal};

    ghost fact = { IsTotal };
}
