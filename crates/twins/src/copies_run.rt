//! `run_twins`: the entry of the crate.
ghost use Rattle.std.specs.Prelude.{◌≡◌, ◌≤◌, length, IfOk, None};
ghost use Rattle.twins.specs.TwinFrames.{AreKnown};
ghost use Rattle.twins.specs.TwinVerdict.{twin_verdict};

use crate::close_queues::close_all;
use crate::exchange::exchange_all;
use crate::sides::Sides;
use crate::twin_copies::TwinCopies;
use crate::{Tamper, TwinRun};
use copies::Verdict;
use job::Job;
use std::alloc::{AllocError, Global};
use std::sync::Wait;
use std::thread::Threads;

/// Runs this number of copies of a run, each on a thread of its own if there is one. Compares their
/// rows while they run. Each copy makes the frames of the whole run, from Register to Terminate,
/// and runs its passes with one worker.
///
/// All copies start together. Each goes on while its queue has a place, and the caller's thread
/// takes and compares their rows. So at most 32 rows of a copy are held. If there aren't threads
/// for all copies, they take turns of that many rows. After a row that differs no further row is
/// started.
///
/// A copy that runs out of memory stops sending, and the result is `AllocError`. It isn't promised
/// that copies run at the same time.
pub fn run_twins<J, T, R>(
    rt: &R,
    alloc: Global,
    run: &TwinRun<T>,
    copies: u32,
) -> Result<Verdict, AllocError>
where
    J: Job<Globals: Send, Element: Send + Sync, Plan: Send + Sync, Part: Send + Sync> + Send + Sync,
    T: Tamper,
    R: Threads + Wait + Sync,
    requires some { 2 ≤ copies }
    requires few { copies ≤ 8 }
    requires good { J.meaning.bad_param run.now.profile.params (length run.now.profile.events)
        ≡ None }
    requires known { AreKnown run.now.profile run.now.inputs }
    ensures { IfOk result (λ verdict. verdict ≡ twin_verdict J.meaning run.now.profile
        run.now.inputs (T.altered run.now.tamper) copies) }
{
    let begun = TwinCopies::<J>::new(alloc, run, copies)?;
    let TwinCopies {
        queues,
        twins,
        intakes,
    } = begun;
    let sides = Sides::new(twins, intakes);
    let (sides, found) = exchange_all(rt, alloc, run, queues.as_slice(), sides)?;
    let (twins, intakes) = sides.parts()?;
    close_all(queues, twins, intakes);
    Ok(found.unwrap_or(Verdict::Agree {
        cycles: run.inputs.len() as u32,
    }))
}
