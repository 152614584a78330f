//! One turn of sending and taking, and the loop over turns.
ghost use Rattle.std.specs.Prelude.{◌≡◌, ◌+◌, ◌∷◌, ◌++◌, [], length};
ghost use Rattle.std.specs.Prelude.{IfNone, IfOk};
ghost use Rattle.std.specs.Thread.{IsSend, IsSync};
ghost use Rattle.twins.specs.Turns.{MayExchange};
ghost use Rattle.twins.specs.TwinFrames.{AreKnown};
ghost use Rattle.twins.specs.TwinQueues.{AreTwins, HaveSent};
ghost use Rattle.twins.specs.Sides.{twins_of};
ghost use Rattle.twins.specs.TakenRows.{Judged, MayTake, Takes};

use crate::sides::Sides;
use crate::taker::Taker;
use crate::threads::send_all;
use crate::twin::Twin;
use crate::{Tamper, TwinRun};
use copies::Verdict;
use frame_queue::FrameQueue;
use job::Job;
use std::alloc::{AllocError, Global};
use std::sync::Wait;
use std::thread::{Threads, join};

/// Reports to all queues that the taking side comes.
fn come_to(queues: &[FrameQueue]) {
    'queues: for queue in queues {
        queue.pace().receiver_comes();
    }
}

/// Reports to all queues that the taking side leaves. If `is_over`, it refuses all further rows.
fn leave(queues: &[FrameQueue], is_over: bool) {
    'queues: for queue in queues {
        let pace = queue.pace();
        if is_over {
            pace.refuse();
        }
        pace.receiver_leaves();
    }
}

/// Takes at most `more` rows of each copy. Returns the taker, and the verdict if a row differs.
fn take_from_copies<R: Wait>(
    rt: &R,
    queues: &[FrameQueue],
    mut taker: Taker,
    more: u32,
) -> (Taker, Option<Verdict>)
    requires { MayTake queues.now taker more }
    ensures { Takes queues.now taker result.0 more result.1 }
{
    come_to(queues);
    let found = taker.take_rows(rt, queues, more);
    leave(queues, found.is_some());
    (taker, found)
}

/// One turn: each copy sends rows while its queue has a place, and meanwhile at most `more` rows of
/// each are taken.
///
/// If all copies have a thread, one turn can go on to the last row. If one side runs after the
/// other, a turn sends at most as many rows as the queues have places.
pub(crate) fn exchange<J, T, R>(
    rt: &R,
    alloc: Global,
    run: &TwinRun<T>,
    queues: &[FrameQueue],
    sides: Sides<J>,
    more: u32,
) -> (Sides<J>, Option<Verdict>)
where
    J: Job<Globals: Send, Element: Send + Sync, Plan: Send + Sync, Part: Send + Sync> + Send + Sync,
    T: Tamper,
    R: Threads + Wait + Sync,
    requires { MayExchange J.meaning run.now.profile run.now.inputs (T.altered run.now.tamper)
        queues.now sides more }
    ensures sends { HaveSent J.meaning run.now.profile run.now.inputs (T.altered run.now.tamper)
        queues.now (twins_of sides) (twins_of result.0) }
    ensures takes { Takes queues.now sides.taker result.0.taker more result.1 }
{
    'queues: for queue in queues {
        queue.pace().reset();
    }
    let Sides {
        last,
        others,
        taker,
    } = sides;
    let (twins, looked) = join(
        rt,
        move || -> (Twin<J>, Vec<Twin<J>>)
            requires threads { IsSync R.row × IsSync T.row × IsSync J.row × IsSend J.row
                × IsSend J.Globals.row × IsSend J.Element.row × IsSync J.Element.row
                × IsSend J.Plan.row × IsSync J.Plan.row × IsSend J.Part.row × IsSync J.Part.row }
            requires known { AreKnown run.now.profile run.now.inputs }
            requires twins { AreTwins J.meaning run.now.profile run.now.inputs
                (T.altered run.now.tamper) queues.now (others.items ++ last ∷ []) }
            ensures sends { HaveSent J.meaning run.entry.now.profile run.entry.now.inputs
                (T.altered run.entry.now.tamper) queues.entry.now (others.items ++ last ∷ [])
                (result.1.items ++ result.0 ∷ []) }
        { send_all(rt, alloc, run, queues, last, others) },
        move || -> (Taker, Option<Verdict>)
            requires { MayTake queues.now taker more }
            ensures { Takes queues.entry.now taker result.0 more result.1 }
        { take_from_copies(rt, queues, taker, more) },
    );
    let (last, others) = twins;
    let (taker, found) = looked;
    let sides = Sides {
        last,
        others,
        taker,
    };
    (sides, found)
}

/// Whether a copy ran out of memory.
fn any_failed<J: Job>(sides: &Sides<J>) -> bool {
    sides.last.failed || sides.others.iter().any(|twin| twin.failed)
}

/// Sends and takes all rows, up to the first one that differs.
pub(crate) fn exchange_all<J, T, R>(
    rt: &R,
    alloc: Global,
    run: &TwinRun<T>,
    queues: &[FrameQueue],
    sides: Sides<J>,
) -> Result<(Sides<J>, Option<Verdict>), AllocError>
where
    J: Job<Globals: Send, Element: Send + Sync, Plan: Send + Sync, Part: Send + Sync> + Send + Sync,
    T: Tamper,
    R: Threads + Wait + Sync,
    requires begins { sides.taker.rows ≡ 0 }
    requires sides { MayExchange J.meaning run.now.profile run.now.inputs
        (T.altered run.now.tamper) queues.now sides 0 }
    ensures sends { IfOk result (λ all. HaveSent J.meaning run.now.profile run.now.inputs
        (T.altered run.now.tamper) queues.now (twins_of sides) (twins_of all.0)) }
    ensures judged { IfOk result (λ all. Judged all.1 queues.now all.0.taker) }
    ensures rows { IfOk result (λ all.
        IfNone all.1 (all.0.taker.rows ≡ length run.now.inputs + 4)) }
{
    let rows = run.rows();
    let mut sides = sides;
    'turns: for _ in rt.forever() {
        if sides.taker.rows >= rows {
            return Ok((sides, None));
        }
        if any_failed(&sides) {
            return Err(AllocError);
        }
        let more = rows - sides.taker.rows;
        let (stood, found) = exchange(rt, alloc, run, queues, sides, more);
        sides = stood;
        if found.is_some() {
            return Ok((sides, found));
        }
    }
    unreachable!()
}
