//! `Workers` and `Host`: the threads for a run, and the machine that they run on.
ghost use Rattle.std.specs.Prelude.{◌≡◌, ◌≤◌, min, max};
ghost use Rattle.job.specs.Passes.{blocks_of};

use job::block_count;
use std::alloc::Global;
use std::sync::Arc;
use worker_pool::AnyGate;

/// The machine of a run: its threads, the gate that each worker passes, and its allocator.
#[derive(Drop)]
pub struct Host<'h, R> {
    pub rt: &'h R,
    pub alloc: Global,
    pub gate: &'h Arc<AnyGate, Global>,
}

impl<'h, R> Host<'h, R> {
    /// This number of workers on this machine.
    pub fn workers(&self, count: u32) -> Workers<'h, R>
        requires some { 1 ≤ count }
        requires few { count ≤ 64 }
        ensures { result.count ≡ count }
    {
        Workers {
            rt: self.rt,
            alloc: self.alloc,
            count,
            gate: self.gate,
        }
    }
}

/// How many workers run the passes of a run, from 1 to 64; the gate that each of them passes; and
/// the allocator of the run.
#[derive(Drop)]
pub struct Workers<'r, R> {
    pub rt: &'r R,
    pub alloc: Global,
    pub count: u32,
    pub gate: &'r Arc<AnyGate, Global>,
    ghost some: { 1 ≤ count },
    ghost few: { count ≤ 64 },
}

/// As many of the workers as there are blocks of elements, and never fewer than one. A worker
/// beyond them isn't started and passes no gate.
pub(crate) fn workers_needed<'r, R>(workers: &Workers<'r, R>, elements: usize) -> Workers<'r, R>
    requires { elements ≤ 65536 }
    ensures { result.count ≡ max (min workers.now.count (blocks_of elements)) 1 }
{
    let blocks = block_count(elements);
    Workers {
        rt: workers.rt,
        alloc: workers.alloc,
        count: workers.count.min(blocks).max(1),
        gate: workers.gate,
    }
}
