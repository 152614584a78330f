//! Runs the sending of all copies, each on a thread of its own.
ghost use Rattle.std.specs.Prelude.{◌≡◌, ◌+◌, ◌≤◌, ◌∷◌, ◌++◌, [], vec_len, vec_capacity};
ghost use Rattle.std.specs.Thread.{IsSend, IsSync};
ghost use Rattle.twins.specs.TwinFrames.{AreKnown, IsTwin};
ghost use Rattle.twins.specs.TwinQueues.{AreTwins, HaveSent};

use crate::twin::Twin;
use crate::{Tamper, TwinRun};
use frame_queue::FrameQueue;
use job::Job;
use std::alloc::Global;
use std::sync::Wait;
use std::thread::{Threads, join};

/// Appends a copy to a list that has room for it.
fn put_back<J: Job>(twins: &mut Vec<Twin<J>>, twin: Twin<J>)
    requires { vec_len twins.old + 1 ≤ vec_capacity twins.old }
    ensures items { twins.new.items ≡ twins.old.items ++ twin ∷ [] }
    ensures room { vec_capacity twins.old ≤ vec_capacity twins.new }
{
    match twins.push(twin) {
        Ok(()) => {}
        Err(_) => unreachable!(),
    }
}

/// Lets all copies send rows, each on a thread of its own if there is one. It allocates nothing for
/// that.
///
/// If all copies have a thread, the threads last as long as the run. New threads start on their
/// parent's processor and take milliseconds to move. With one thread for each batch of rows, the
/// copies ran serially half of the time.
pub(crate) fn send_all<J, T, R>(
    rt: &R,
    alloc: Global,
    run: &TwinRun<T>,
    queues: &[FrameQueue],
    last: Twin<J>,
    mut others: Vec<Twin<J>>,
) -> (Twin<J>, Vec<Twin<J>>)
where
    J: Job<Globals: Send, Element: Send + Sync, Plan: Send + Sync, Part: Send + Sync> + Send + Sync,
    T: Tamper,
    R: Threads + Wait + Sync,
    requires known { AreKnown run.now.profile run.now.inputs }
    requires twins { AreTwins J.meaning run.now.profile run.now.inputs (T.altered run.now.tamper)
        queues.now (others.items ++ last ∷ []) }
    ensures sends { HaveSent J.meaning run.now.profile run.now.inputs (T.altered run.now.tamper)
        queues.now (others.items ++ last ∷ []) (result.1.items ++ result.0 ∷ []) }
    ensures room { vec_capacity others ≤ vec_capacity result.1 }
{
    let Some((queue, front)) = queues.split_last() else {
        unreachable!()
    };
    let Some(next) = others.pop() else {
        return (last.send_rows(rt, alloc, run, queue), others);
    };
    let (last, second) = join(
        rt,
        move || -> Twin<J>
            requires tamper { IsSync T.row }
            requires known { AreKnown run.now.profile run.now.inputs }
            requires twin { IsTwin J.meaning run.now.profile run.now.inputs
                (T.altered run.now.tamper) queue.now last }
            ensures twin { IsTwin J.meaning run.entry.now.profile run.entry.now.inputs
                (T.altered run.entry.now.tamper) queue.entry.now result }
            ensures copy { result.copy ≡ last.copy }
        { last.send_rows(rt, alloc, run, queue) },
        move || -> (Twin<J>, Vec<Twin<J>>)
            requires threads { IsSync R.row × IsSync T.row × IsSync J.row × IsSend J.row
                × IsSend J.Globals.row × IsSend J.Element.row × IsSync J.Element.row
                × IsSend J.Plan.row × IsSync J.Plan.row × IsSend J.Part.row × IsSync J.Part.row }
            requires known { AreKnown run.now.profile run.now.inputs }
            requires twins { AreTwins J.meaning run.now.profile run.now.inputs
                (T.altered run.now.tamper) front.now (others.items ++ next ∷ []) }
            ensures sends { HaveSent J.meaning run.entry.now.profile run.entry.now.inputs
                (T.altered run.entry.now.tamper) front.entry.now (others.items ++ next ∷ [])
                (result.1.items ++ result.0 ∷ []) }
            ensures room { vec_capacity others ≤ vec_capacity result.1 }
        { send_all(rt, alloc, run, front, next, others) },
    );
    let (next, mut others) = second;
    put_back(&mut others, next);
    (last, others)
}
