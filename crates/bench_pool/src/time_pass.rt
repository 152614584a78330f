//! Measures the time of a pass of the heavy job by a crew.

ghost use Rattle.std.specs.Prelude.{◌≡◌, ◌≤◌, length, IfOk, IfSome};
ghost use Rattle.std.specs.List.{All};
ghost use Rattle.job.specs.event_cache.Rings.{windows};
ghost use Rattle.job.specs.Laws.{CoversSome};
ghost use Rattle.job.specs.Passes.{IsReady};
ghost use Rattle.job_heavy.specs.Meaning.{meaning};
ghost use Rattle.job_heavy.specs.Ranges.{Covers, Own, Fit};
ghost use Rattle.worker_pool.specs.Crews.{room_name};

use anyhow::{Context, Result, bail};
use det_client::{Client, Next};
use det_values::{Container, Events, Params};
use job::event_cache::EventCache;
use job::{Job, JobStart, PassRoom, Pool};
use job_heavy::Heavy;
use std::alloc::{AllocError, Global};
use std::marker::Brand;
use std::sync::Arc;
use std::thread::Threads;
use std::time::{Clock, Duration, Instant};
use tickets::OfficeName;
use worker_pool::{Crew, CrewRoom, NoGate, OwnedPass};

/// A cache without events.
fn no_events(alloc: Global) -> std::result::Result<EventCache, AllocError>
    ensures { IfOk result (λ cache. length (windows cache) ≡ 0) }
{
    EventCache::new(alloc, &Events::new(alloc))
}

/// Pass 0 of cycle 1.
fn pass_zero<J: Job>(
    alloc: Global,
    job: J,
    plan: J::Plan,
    carry: J::Part,
    elements: Container<J::Element>,
    seed: u64,
) -> std::result::Result<OwnedPass<J>, AllocError>
    requires fit { J.Fit job plan }
    requires carry { CoversSome (J.Covers job) carry }
    requires own { All (J.Own job) elements }
    requires few { length elements ≤ 65536 }
    ensures { IfOk result (λ pass. IsReady J.meaning J.Covers J.Own J.Fit pass) }
{
    Ok(OwnedPass {
        job: Arc::new(alloc, job)?,
        plan: Arc::new(alloc, plan)?,
        carry: Arc::new(alloc, carry)?,
        number: 0,
        elements: Arc::new(alloc, elements)?,
        seed,
        cycle: 1,
        earlier: Arc::new(alloc, Container::new(alloc))?,
        shows: false,
    })
}

/// The first pass over the elements that a job with these parameters starts with. None if memory
/// runs out, or the job can't be made or refuses.
fn first_pass<J: Job>(alloc: Global, params: &Params) -> Option<OwnedPass<J>>
    ensures { IfSome result (λ pass. IsReady J.meaning J.Covers J.Own J.Fit pass) }
{
    let job = J::make(params, 0).ok()?;
    let cache = no_events(alloc).ok()?;
    let mut client = Client::resume_at(10, 0, 0);
    let JobStart { globals, elements } = job.start(alloc, &mut client).ok()?;
    let mut client = Client::resume_at(10, 0, 0);
    let _ = client.wait_for_activation(Next::Go(None));
    let plan = job.prepare(alloc, &globals, &elements, &cache, &mut client, &mut None);
    let plan = plan.ok()?;
    let carry = job.unit(alloc, &mut None);
    pass_zero(alloc, job, plan, carry, elements, client.seed()).ok()
}

/// The time of a pass by this pool.
fn time_pass<J: Job, P: Pool<J>, R: Clock>(
    rt: &R,
    alloc: Global,
    pool: &mut P,
    pass: &OwnedPass<J>,
) -> Result<Duration>
    requires { IsReady J.meaning J.Covers J.Own J.Fit pass.now }
{
    let start = Instant::now(rt)?;
    let done = pool.run_pass(&pass.pass(), &mut PassRoom::new(alloc));
    done.ok().context("refused")?;
    Ok(start.elapsed(rt)?)
}

/// The time of a pass of the heavy job by a crew started in this room.
fn time_with_crew<B, R>(
    rt: &R,
    alloc: Global,
    room: CrewRoom<Heavy>,
    pass: &OwnedPass<Heavy>,
    workers: u32,
) -> Result<Duration>
where
    B: OfficeName + Send + Sync + 'static,
    R: Threads + Clock,
    requires room { room_name room ≡ B.table }
    requires ready { IsReady meaning Covers Own Fit pass.now }
    requires workers { (1 ≤ workers) × (workers ≤ 64) }
{
    let gate = Arc::new(alloc, NoGate).ok().context("out of memory")?;
    let crew = Crew::<Heavy, B, NoGate>::start(rt, alloc, room, workers, &gate);
    let mut crew = crew.ok().context("out of memory")?;
    let time = time_pass(rt, alloc, &mut crew, pass);
    crew.stop(rt);
    time
}

/// The time of the heavy job's first pass by a crew, over the elements that the job with these
/// parameters starts with.
pub fn time_crew_pass<R: Threads + Clock>(
    rt: &R,
    alloc: Global,
    params: &Params,
    workers: u32,
) -> Result<Duration>
    requires { (1 ≤ workers) × (workers ≤ 64) }
{
    let Some(pass) = first_pass::<Heavy>(alloc, params) else {
        bail!("no pass");
    };
    let Ok(room) = CrewRoom::new(alloc) else {
        bail!("out of memory");
    };
    time_with_crew::<Brand, R>(rt, alloc, room, &pass, workers)
}
