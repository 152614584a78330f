//! The pool `Crew`, which keeps its threads from pass to pass. A new thread can share its parent's
//! processor for milliseconds, so new threads for each pass would mostly run one after another.
ghost use Rattle.std.specs.Prelude.{◌+◌, ◌<◌, ◌≤◌, ◌^◌, length, IfOk};
ghost use Rattle.job.specs.Passes.{IsReady, IsAnswer, block_in, blocks_in};
ghost use Rattle.pass_in_blocks.specs.BlockAnswers.{AreRight, AreShown};
ghost use Rattle.pass_in_blocks.specs.ShownElements.{shown_in};

use crate::bench::{clear_benches, fill_benches};
use crate::gate::Gate;
use crate::link::Link;
use crate::links::work_together;
use crate::seat::PassTable;
use crate::task::{OwnedPass, Task};
use job::{Job, PassDone, PassRef, PassRoom, Pool, PoolFault};
use pass_in_blocks::{BlockResult, finish_pass};
use std::alloc::{AllocError, Global};
use std::marker::Model;
use std::sync::Arc;
use std::thread::JoinHandle;
use tickets::{Keeper, OfficeName};

/// The number of passes after which the crew gives no work to its threads. It keeps the tickets'
/// numbers within their bound.
const MOST_PASSES: u64 = 1_000_000_000_000;

/// The caller and its kept threads. Contracts see the number of workers.
///
/// No result depends on a thread: blocks that a kept thread doesn't return in time are run by the
/// caller. A crew can't be dropped, so its owner must call `stop`.
pub struct Crew<J: Job, B: OfficeName, G: Gate> {
    pub(crate) keeper: Keeper<Task<J>, B>,
    pub(crate) links: Vec<Link<J, B>>,
    pub(crate) handles: Vec<JoinHandle<()>>,
    pub(crate) workers: u32,
    pub(crate) gate: Arc<G, Global>,
}

impl<J: Job, B: OfficeName, G: Gate> Model for Crew<J, B, G> {
    ghost use Rattle.std.specs.Prelude.{ℕ, ◌≤◌, ◌<◌, length};

    ghost Value = { ℕ };

    ghost view = { λ c. c.workers };

    ghost invariant = { λ c. (1 ≤ c.workers) × (c.workers ≤ 64)
        × (length c.links.items < c.workers) };
}

/// The results of a pass by the caller and these kept threads. Some blocks may be missing.
fn shared_pass<J: Job, B: OfficeName, G: Gate>(
    keeper: &mut Keeper<Task<J>, B>,
    links: &mut [Link<J, B>],
    pass: &PassRef<'_, J>,
    gate: &G,
    room: &mut PassRoom<J::Element, J::Part>,
) -> Result<Vec<BlockResult<J::Element, J::Part>>, AllocError>
    requires few { length links.old ≤ 63 }
    requires room { keeper.old.number < 2 ^ 63 }
    requires ready { IsReady J.meaning J.Covers J.Own J.Fit pass.now }
    ensures right { IfOk result (λ found. AreRight (block_in J.meaning pass.now)
        (blocks_in pass.now) found.items) }
    ensures shown { IfOk result (λ found. AreShown (shown_in J.meaning pass.now) found.items) }
{
    let (table, mut seat) = PassTable::new(room.alloc(), pass.blocks())?;
    let pass = OwnedPass::from_pass(pass)?;
    let Ok(task) = Arc::new(room.alloc(), Task { pass, table }) else {
        return Err(AllocError);
    };
    work_together(keeper, links, &task, &mut seat, gate, room)
}

/// Lets the workers from `first` on pass the gate on the caller's thread.
fn enter_on_caller<G: Gate>(gate: &G, first: u32, workers: u32) {
    for worker in first..workers {
        gate.enter(worker);
    }
}

/// A pass by the caller and the kept threads. At most as many threads get work as there are blocks
/// besides the caller's first one. If none gets work, no table is made.
fn crew_pass<J: Job, B: OfficeName, G: Gate>(
    keeper: &mut Keeper<Task<J>, B>,
    links: &mut [Link<J, B>],
    pass: &PassRef<'_, J>,
    workers: u32,
    gate: &G,
    room: &mut PassRoom<J::Element, J::Part>,
) -> Result<PassDone<J::Element, J::Part>, PoolFault>
    requires few { length links.old < workers }
    requires workers { workers ≤ 64 }
    requires ready { IsReady J.meaning J.Covers J.Own J.Fit pass.now }
    ensures { IsAnswer J.meaning J.Covers J.Own pass.now result }
{
    let more = pass.blocks().saturating_sub(1) as usize;
    let helpers = more.min(links.len());
    if helpers == 0 || keeper.number() >= MOST_PASSES {
        enter_on_caller(gate, 0, workers);
        return finish_pass(pass, Vec::new(room.alloc()), room);
    }
    fill_benches(links, room);
    let results = shared_pass(keeper, &mut links[..helpers], pass, gate, room)?;
    enter_on_caller(gate, helpers as u32 + 1, workers);
    clear_benches(links, room);
    finish_pass(pass, results, room)
}

impl<J: Job, B: OfficeName, G: Gate> Pool<J> for Crew<J, B, G> {
    fn run_pass(
        &mut self,
        pass: &PassRef<'_, J>,
        room: &mut PassRoom<J::Element, J::Part>,
    ) -> Result<PassDone<J::Element, J::Part>, PoolFault> {
        crew_pass(
            &mut self.keeper,
            self.links.as_mut_slice(),
            pass,
            self.workers,
            &*self.gate,
            room,
        )
    }
}
