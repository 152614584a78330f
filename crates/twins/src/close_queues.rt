//! The end of a run: the queues of all copies are closed.
ghost use Rattle.twins.specs.ClosedQueues.{AreSenders, AreBegun};
ghost use Rattle.twins.specs.TakenRows.{AreIntakes};

use crate::taker::Intake;
use crate::twin::Twin;
use frame_queue::FrameQueue;
use job::Job;

/// Closes the queues of all copies. Only then is it known that the rows taken of a copy are the
/// first of those that it sent.
pub(crate) fn close_all<J: Job>(
    mut queues: Vec<FrameQueue>,
    mut twins: Vec<Twin<J>>,
    mut intakes: Vec<Intake>,
)
    requires senders { AreSenders queues.items twins.items }
    requires intakes { AreIntakes queues.items intakes.items }
    ensures { AreBegun intakes.items twins.items }
{
    'copies: while let Some(queue) = queues.pop() {
        let Some(twin) = twins.pop() else {
            unreachable!()
        };
        let Some(intake) = intakes.pop() else {
            unreachable!()
        };
        let Twin { sender, .. } = twin;
        let Intake { receiver, .. } = intake;
        let _rest = queue.close(sender, receiver);
    }
}
