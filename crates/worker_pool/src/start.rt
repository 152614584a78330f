//! The start and the end of a crew's threads.
ghost use Rattle.std.specs.Prelude.{◌≡◌, ◌≤◌, ◌<◌, [], length, IfOk};
ghost use Rattle.worker_pool.specs.Crews.{room_name};

use crate::bench::Bench;
use crate::crew::Crew;
use crate::crew_room::CrewRoom;
use crate::gate::Gate;
use crate::link::{Link, MOST_REPLIES, serve_link};
use crate::messages::{ReplyFits, WorkFits};
use job::Job;
use rtrb::RingBuffer;
use std::alloc::{AllocError, Global};
use std::sync::Arc;
use std::thread;
use std::thread::{JoinHandle, Threads};
use tickets::{Keeper, OfficeName};

/// The most threads of a crew, including the caller's. It is also the assumed number of processors
/// if they can't be counted.
const MOST_THREADS: usize = 64;

/// The number of threads for `workers` workers, including the caller's. It is at most the number of
/// processors, since more threads would only take turns. But with two workers or more it is at
/// least two.
fn threads_for<R: Threads>(rt: &R, workers: u32) -> u32
    requires { 1 ≤ workers }
    ensures some { 1 ≤ result }
    ensures few { result ≤ workers }
{
    let processors = match thread::available_parallelism(rt) {
        Ok(count) => count.get(),
        Err(_) => MOST_THREADS,
    };
    workers.min(processors.clamp(2, MOST_THREADS) as u32)
}

/// A kept thread after its start: the link to it, and its handle.
#[derive(Drop)]
struct KeptThread<J: Job, B: OfficeName> {
    link: Link<J, B>,
    handle: JoinHandle<()>,
}

impl<J, B, G> Crew<J, B, G>
where
    J: Job + Send + Sync + 'static,
    J::Globals: Send + 'static,
    J::Element: Send + Sync + 'static,
    J::Plan: Send + Sync + 'static,
    J::Part: Send + Sync + 'static,
    B: OfficeName + Send + Sync + 'static,
    G: Gate + Send + Sync + 'static,
{
    /// Starts one kept thread, or returns None if the system refuses a thread.
    fn start_thread<R: Threads>(
        rt: &R,
        alloc: Global,
        worker: u32,
        gate: &Arc<G, Global>,
    ) -> Result<Option<KeptThread<J, B>>, AllocError> {
        let gate = Arc::try_clone(gate)?;
        let (works, theirs) = RingBuffer::with_protocol::<Global, WorkFits>(alloc, 1)?;
        let (back, replies) = RingBuffer::with_protocol::<Global, ReplyFits>(alloc, MOST_REPLIES)?;
        let thread = move || serve_link::<J, B, G>(worker, gate, theirs, back);
        let Ok(handle) = thread::spawn(rt, thread) else {
            return Ok(None);
        };
        let link = Link::<J, B> {
            works,
            replies,
            bench: Bench::new(alloc),
            is_busy: false,
        };
        Ok(Some(KeptThread { link, handle }))
    }

    /// Starts a kept thread for each worker except the caller, until the system refuses one.
    fn start_threads<R: Threads>(
        rt: &R,
        alloc: Global,
        workers: u32,
        gate: &Arc<G, Global>,
        links: &mut Vec<Link<J, B>>,
        handles: &mut Vec<JoinHandle<()>>,
    ) -> Result<(), AllocError>
        requires none { links.old.items ≡ [] }
        requires some { 1 ≤ workers }
        ensures { length links.new.items < workers }
    {
        'start: for worker in 1..workers {
            let Some(started) = Self::start_thread(rt, alloc, worker, gate)? else {
                break;
            };
            let KeptThread { link, handle } = started;
            if handles.push(handle).is_err() || links.push(link).is_err() {
                return Err(AllocError);
            }
        }
        Ok(())
    }

    /// A crew of `workers` workers: the caller, and a kept thread for each other worker while there
    /// are processors for them. If the system refuses threads there are fewer, and no result
    /// changes. A worker without a thread passes the gate on the caller's thread, after the others.
    /// The gate is behind an `Arc`, since the threads outlive this call.
    pub fn start<R: Threads>(
        rt: &R,
        alloc: Global,
        room: CrewRoom<J>,
        workers: u32,
        gate: &Arc<G, Global>,
    ) -> Result<Crew<J, B, G>, AllocError>
        requires room { room_name room ≡ B.table }
        requires workers { (1 ≤ workers) × (workers ≤ 64) }
        ensures { IfOk result (λ crew. crew ≡ workers) }
    {
        let more = workers as usize - 1;
        let mut links = Vec::with_capacity(alloc, more)?;
        let mut handles = Vec::with_capacity(alloc, more)?;
        let gate = Arc::try_clone(gate)?;
        let threads = threads_for(rt, workers);
        let begun = Self::start_threads(rt, alloc, threads, &gate, &mut links, &mut handles);
        let crew = Crew {
            keeper: Keeper::new(room.office),
            links,
            handles,
            workers,
            gate,
        };
        match begun {
            Ok(()) => Ok(crew),
            Err(fault) => {
                crew.stop(rt);
                Err(fault)
            }
        }
    }

    /// Ends the crew: it joins all threads.
    pub fn stop<R: Threads>(self, rt: &R) {
        let Crew {
            keeper: _,
            links,
            handles,
            workers: _,
            gate: _,
        } = self;
        // A thread ends when the other end of its ring is dropped.
        drop(links);
        for handle in handles {
            handle.join(rt);
        }
    }
}
