//! Passes of the list job, by a crew and in order, and comparisons of their results.
ghost use Rattle.std.specs.Prelude.{◌≡◌, ◌≤◌, length};
ghost use Rattle.std.specs.Arc.{arc_value};
ghost use Rattle.worker_pool.specs.Crews.{room_name};

use crate::pool_tests::gates::{HoldGate, Wanted};
use crate::pool_tests::list_job::{ListJob, Met};
use crate::pool_tests::watch::Watch;
use det_values::Container;
use job::{PassDone, PassRoom, Pool, PoolFault};
use job_heavy::NoPlan;
use pass_in_blocks::SerialPool;
use std::alloc::Global;
use std::marker::{Brand, Model};
use std::process::Abort;
use std::sync::Arc;
use std::sync::atomic::{AtomicBool, AtomicU64, Ordering};
use std::thread::Threads;
use tickets::OfficeName;
use worker_pool::{Crew, CrewRoom, Gate, OwnedPass};

/// A pass of a list job, which is ready to run.
#[derive(Drop)]
pub(crate) struct ListPass {
    owned: OwnedPass<ListJob>,
}

impl Model for ListPass {
    ghost use Rattle.job.specs.Passes.{IsReady};
    ghost use Rattle.thread_tests.specs.pool_tests.Meaning.{meaning, Covers, Own, Fit};

    ghost Value = { Unit {0} };

    ghost view = { λ _. tt };

    ghost invariant = { λ p. IsReady meaning Covers Own Fit p.owned };
}

/// The result of such a pass.
pub(crate) type ListDone = Result<PassDone<u8, Met>, PoolFault>;

/// A value behind a new `Arc`.
pub(crate) fn new_shared<T: Drop, R: Abort>(rt: &R, alloc: Global, value: T) -> Arc<T, Global>
    ensures { arc_value result ≡ value }
{
    match Arc::new(alloc, value) {
        Ok(owner) => owner,
        Err(_) => panic!(rt; "out of memory"),
    }
}

/// A clone of the `Arc`.
fn clone_owner<T: Drop, R: Abort>(rt: &R, owner: &Arc<T, Global>) -> Arc<T, Global>
    ensures { arc_value result ≡ arc_value owner.now }
{
    Arc::try_clone(owner).expect(rt, "out of memory")
}

/// The bytes i % 251.
pub(crate) fn many_bytes<R: Abort>(rt: &R, alloc: Global) -> Vec<u8>
    ensures { length result.items ≡ 65536 }
{
    let mut bytes = Vec::new(alloc);
    'each: for i in 0..65536u32 {
        bytes.push((i % 251) as u8).expect(rt, "out of memory");
    }
    bytes
}

/// These bytes as elements.
fn elements_of<R: Abort>(rt: &R, alloc: Global, bytes: &[u8]) -> Container<u8>
    requires { length bytes.now ≤ 65536 }
    ensures { result ≡ bytes.now }
{
    let mut elements = Container::new(alloc);
    'each: for byte in bytes {
        elements.push(alloc, *byte).expect(rt, "out of memory");
    }
    elements
}

/// Pass 0 of cycle 1 over these elements. Elements from `limit` on refuse.
pub(crate) fn list_pass<R: Abort>(
    rt: &R,
    alloc: Global,
    limit: u32,
    watch: Option<Arc<Watch, Global>>,
    bytes: &[u8],
) -> ListPass
    requires { length bytes.now ≤ 65536 }
{
    let job = ListJob {
        limit,
        watch,
        events: 0,
    };
    let owned = OwnedPass {
        job: new_shared(rt, alloc, job),
        plan: new_shared(rt, alloc, NoPlan),
        carry: new_shared(rt, alloc, Met::new(alloc)),
        number: 0,
        elements: new_shared(rt, alloc, elements_of(rt, alloc, bytes)),
        seed: 7,
        cycle: 1,
        earlier: new_shared(rt, alloc, Container::new(alloc)),
        shows: true,
    };
    ListPass { owned }
}

impl ListPass {
    /// The result of the pass by this pool, in this memory.
    fn run<P: Pool<ListJob>>(&self, pool: &mut P, room: &mut PassRoom<u8, Met>) -> ListDone {
        pool.run_pass(&self.owned.pass(), room)
    }

    /// The result of the pass by one thread. A watch of the pass sees its elements again.
    pub(crate) fn run_in_order(&self, alloc: Global) -> ListDone {
        self.run(&mut SerialPool, &mut PassRoom::new(alloc))
    }

    /// Lets the element go that a watch of the pass holds.
    fn let_go(&self) {
        if let Some(watch) = &self.owned.job.watch {
            watch.let_go.store(true, Ordering::SeqCst);
        }
    }
}

/// Whether two passes ended alike. Their shown bytes hold each element with its draws.
fn is_same(left: &ListDone, right: &ListDone) -> bool {
    match (left, right) {
        (Ok(left), Ok(right)) => left.part == right.part && left.shown == right.shown,
        (Err(left), Err(right)) => *left == *right,
        _ => false,
    }
}

/// Whether these are the results of these passes by one thread.
pub(crate) fn are_in_order(alloc: Global, passes: &[ListPass], results: &[ListDone]) -> bool {
    if passes.len() != results.len() {
        return false;
    }
    for (pass, done) in passes.iter().zip(results) {
        if !is_same(done, &pass.run_in_order(alloc)) {
            return false;
        }
    }
    true
}

/// Whether this element refused the pass. Its byte equals its number.
pub(crate) fn is_refused(done: &ListDone, element: u32) -> bool {
    match done {
        Ok(_) => false,
        Err(fault) => {
            *fault
                == PoolFault::Refused {
                    element,
                    code: element,
                }
        }
    }
}

/// A gate that holds a worker, with a watch of the elements.
pub(crate) fn gate_of<R: Abort>(
    rt: &R,
    alloc: Global,
    worker: u32,
    wanted: Wanted,
) -> Arc<HoldGate, Global> {
    let watch = Watch {
        runs: AtomicU64::new(0),
        holds: AtomicBool::new(false),
        let_go: AtomicBool::new(false),
    };
    let gate = HoldGate {
        watch: new_shared(rt, alloc, watch),
        worker,
        wanted,
        came: AtomicBool::new(false),
        rested: AtomicU64::new(0),
    };
    new_shared(rt, alloc, gate)
}

/// A pass without refusals that a gate's watch sees.
pub(crate) fn watched_pass<R: Abort>(
    rt: &R,
    alloc: Global,
    gate: &Arc<HoldGate, Global>,
    bytes: &[u8],
) -> ListPass
    requires { length bytes.now ≤ 65536 }
{
    list_pass(rt, alloc, 65536, Some(clone_owner(rt, &gate.watch)), bytes)
}

/// The results of these passes by one crew in this room. Each runs in memory of those before it.
/// After each the element is let go that its watch holds.
fn run_with_crew<B, G, R>(
    rt: &R,
    alloc: Global,
    room: CrewRoom<ListJob>,
    workers: u32,
    gate: &Arc<G, Global>,
    passes: &[ListPass],
) -> Vec<ListDone>
where
    B: OfficeName + Send + Sync + 'static,
    G: Gate + Send + Sync + 'static,
    R: Threads + Abort,
    requires room { room_name room ≡ B.table }
    requires workers { (1 ≤ workers) × (workers ≤ 64) }
{
    let crew = Crew::<ListJob, B, G>::start(rt, alloc, room, workers, gate);
    let mut crew = crew.expect(rt, "out of memory");
    let mut spares = PassRoom::new(alloc);
    let mut results = Vec::new(alloc);
    for pass in passes {
        let done = pass.run(&mut crew, &mut spares);
        results.push(done).expect(rt, "out of memory");
        pass.let_go();
    }
    crew.stop(rt);
    results
}

/// The results of these passes by one crew of `workers` workers, one pass after another. Each runs
/// in memory of those before it. After each the element is let go that its watch holds.
pub(crate) fn run_by_crew<G, R>(
    rt: &R,
    alloc: Global,
    workers: u32,
    gate: &Arc<G, Global>,
    passes: &[ListPass],
) -> Vec<ListDone>
where
    G: Gate + Send + Sync + 'static,
    R: Threads + Abort,
    requires { (1 ≤ workers) × (workers ≤ 64) }
{
    let room = CrewRoom::new(alloc).expect(rt, "out of memory");
    run_with_crew::<Brand, G, R>(rt, alloc, room, workers, gate, passes)
}
