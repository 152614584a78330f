//! The messages to a kept thread and back, and the protocols of their rings.

use crate::bench::Bench;
use crate::seat::PassSeat;
use crate::task::Task;
use job::{Job, PassRoom};
use pass_in_blocks::BlockResult;
use rtrb::Protocol;
use std::alloc::{AllocError, Global};
use std::sync::Arc;
use tickets::{OfficeName, Ticket};

/// A piece of work: a task, a seat at its table, a ticket for it, and memory to work in.
#[derive(Drop)]
pub struct Work<J: Job, B: OfficeName> {
    pub ticket: Ticket<Task<J>, B>,
    pub task: Arc<Task<J>, Global>,
    pub seat: PassSeat,
    pub bench: Bench<J::Element, J::Part>,
}

/// A reply: the ticket, the seat, the results of the blocks that the worker claimed, and the room
/// that it worked in.
#[derive(Drop)]
pub struct Reply<J: Job, B: OfficeName> {
    pub ticket: Ticket<Task<J>, B>,
    pub seat: PassSeat,
    pub results: Result<Vec<BlockResult<J::Element, J::Part>>, AllocError>,
    pub room: PassRoom<J::Element, J::Part>,
}

/// The protocol of work: the ticket, the task and the seat of a message belong together.
pub struct WorkFits;

impl<J: Job, B: OfficeName> Protocol<Work<J, B>> for WorkFits {
    ghost use Rattle.std.specs.Arc.{arc_value};
    ghost use Rattle.worker_pool.specs.Messages.{IsWork};

    ghost allows = { λ _ work. IsWork J.meaning J.Covers J.Own J.Fit work.ticket.work
        (arc_value work.task) work.seat };
}

/// The protocol of replies: the results are right for the task of the ticket.
pub struct ReplyFits;

impl<J: Job, B: OfficeName> Protocol<Reply<J, B>> for ReplyFits {
    ghost use Rattle.worker_pool.specs.Messages.{IsReply};

    ghost allows = { λ _ reply. IsReply J.meaning reply.ticket.work reply.seat
        reply.results };
}
