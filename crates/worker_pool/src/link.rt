//! The link to one kept thread: a ring of work to it, and a ring of replies back.
ghost use Rattle.std.specs.Prelude.{◌≡◌, ◌+◌, ◌≤◌, [], ◌∷◌, ◌++◌, IfOk, OnOk, IfSome, IsTrue};
ghost use Rattle.std.specs.Arc.{arc_value};
ghost use Rattle.worker_pool.specs.Handles.{view_of, IsAt, IsSameSeat};
ghost use Rattle.rtrb.specs.Ring.{sent, received, known_free};
ghost use Rattle.worker_pool.specs.Messages.{IsTask, IsWork, IsReply, AreOf, IsShareOf, HasFound};
ghost use Rattle.worker_pool.specs.Messages.{IsServed};
ghost use Rattle.worker_pool.specs.Views.{IsNew};

use crate::bench::Bench;
use crate::gate::Gate;
use crate::messages::{Reply, ReplyFits, Work, WorkFits};
use crate::seat::PassSeat;
use crate::task::Task;
use crate::work::work_blocks;
use job::{Job, PassRoom};
use pass_in_blocks::BlockResult;
use rtrb::{Consumer, Producer};
use std::alloc::{AllocError, Global};
use std::mem;
use std::sync::Arc;
use tickets::{Keeper, OfficeName};

/// The most replies that wait in one ring.
pub(crate) const MOST_REPLIES: usize = 2;

/// The caller's end of the link to one kept thread.
#[derive(Drop)]
pub struct Link<J: Job, B: OfficeName> {
    pub(crate) works: Producer<Work<J, B>, Global, WorkFits>,
    pub(crate) replies: Consumer<Reply<J, B>, Global, ReplyFits>,
    /// Memory for the next work.
    pub(crate) bench: Bench<J::Element, J::Part>,
    /// Whether the thread has work and hasn't replied yet.
    pub(crate) is_busy: bool,
}

impl<J: Job, B: OfficeName> Link<J, B> {
    /// The next reply of the thread, if there is one. After it the thread can get work again.
    fn next_reply(&mut self) -> Option<Reply<J, B>>
        ensures { IfSome result (λ reply.
            IsReply J.meaning reply.ticket.work reply.seat reply.results) }
    {
        match self.replies.pop() {
            Ok(reply) => {
                self.is_busy = false;
                Some(reply)
            }
            Err(_) => None,
        }
    }
}

/// Claims and runs blocks of a task.
pub(crate) fn work_on_task<J: Job>(
    task: &Task<J>,
    seat: &mut PassSeat,
    room: &mut PassRoom<J::Element, J::Part>,
    list: Vec<BlockResult<J::Element, J::Part>>,
) -> Result<Vec<BlockResult<J::Element, J::Part>>, AllocError>
    requires task { IsTask J.meaning J.Covers J.Own J.Fit task.now }
    requires here { IsAt seat.old task.now.table }
    requires new { IsNew (view_of seat.old) }
    ensures seat { IsSameSeat seat.new seat.old }
    ensures right { IfOk result (λ results. AreOf J.meaning task.now results.items) }
    ensures share { IfOk result (λ results.
        IsShareOf J.meaning task.now seat.new results.items) }
{
    let pass = task.pass.pass();
    let results = work_blocks(&task.table, seat, &pass, room, list)?;
    Ok(results.into_vec())
}

/// Does a piece of work.
fn reply_to<J: Job, B: OfficeName>(work: Work<J, B>) -> Reply<J, B>
    requires { IsWork J.meaning J.Covers J.Own J.Fit work.ticket.work
        (arc_value work.task) work.seat }
    ensures ticket { result.ticket ≡ work.ticket }
    ensures reply { IsReply J.meaning result.ticket.work result.seat result.results }
{
    let Work {
        ticket,
        task,
        mut seat,
        bench,
    } = work;
    let Bench {
        mut room,
        results: list,
    } = bench;
    let results = work_on_task(&*task, &mut seat, &mut room, list);
    Reply {
        ticket,
        seat,
        results,
        room,
    }
}

/// Takes the next piece of work, does it and replies. Returns whether there was one. A reply
/// without a place in its ring is dropped.
fn serve_next<J: Job, B: OfficeName, G: Gate>(
    worker: u32,
    gate: &G,
    works: &mut Consumer<Work<J, B>, Global, WorkFits>,
    replies: &mut Producer<Reply<J, B>, Global, ReplyFits>,
) -> bool
    ensures none { ¬ IsTrue result → (received works.new ≡ received works.old)
        × (sent replies.new ≡ sent replies.old) }
    ensures served { IsTrue result → IsServed (received works.old) (received works.new)
        (sent replies.old) (sent replies.new) (known_free replies.new) }
{
    let Ok(work) = works.pop() else {
        return false;
    };
    gate.enter(worker);
    let _ = replies.push(reply_to(work));
    true
}

/// The loop of a kept thread, which ends when the other end of its ring is dropped.
pub(crate) fn serve_link<J: Job, B: OfficeName, G: Gate>(
    worker: u32,
    gate: Arc<G, Global>,
    mut works: Consumer<Work<J, B>, Global, WorkFits>,
    mut replies: Producer<Reply<J, B>, Global, ReplyFits>,
) {
    let mut idle = 0u32;
    'serve_link: for _ in 0..u64::MAX {
        if serve_next(worker, &*gate, &mut works, &mut replies) {
            idle = 0;
        } else if works.is_abandoned() {
            return;
        } else {
            gate.rest(idle);
            idle = idle.saturating_add(1);
        }
    }
}

/// Gives a task and one of the seat's shares to a kept thread, and returns whether it was given. A
/// thread that still runs an earlier task gets none, so the crew waits for it once and not in each
/// pass.
pub(crate) fn give<J: Job, B: OfficeName>(
    keeper: &mut Keeper<Task<J>, B>,
    link: &mut Link<J, B>,
    task: &Arc<Task<J>, Global>,
    seat: &mut PassSeat,
) -> bool
    requires announced { keeper.old.work ≡ arc_value task.now ∷ [] }
    requires task { IsTask J.meaning J.Covers J.Own J.Fit (arc_value task.now) }
    requires here { IsAt seat.old (arc_value task.now).table }
    requires new { IsNew (view_of seat.old) }
    requires two { 2 ≤ (view_of seat.old).shares }
    ensures same { keeper.new ≡ keeper.old }
    ensures seat { IsSameSeat seat.new seat.old }
    ensures new { IsNew (view_of seat.new) }
    ensures shares { (view_of seat.old).shares ≤ (view_of seat.new).shares + 1 }
{
    if link.is_busy || link.works.is_full() {
        return false;
    }
    let Ok(theirs) = Arc::try_clone(task) else {
        return false;
    };
    let ticket = keeper.ticket();
    let newcomer = task.table.split(seat);
    let empty = Bench::new(link.bench.room.alloc());
    let work = Work {
        ticket,
        task: theirs,
        seat: newcomer,
        bench: mem::replace(&mut link.bench, empty),
    };
    link.is_busy = link.works.push(work).is_ok();
    link.is_busy
}

/// Adds results to those found, and puts their empty list in `left`.
fn add_results<T: Drop>(
    found: &mut Vec<T>,
    mut more: Vec<T>,
    left: &mut Vec<T>,
) -> Result<(), AllocError>
    ensures { OnOk result (found.new.items ≡ found.old.items ++ more.items) }
{
    found.append(&mut more)?;
    *left = more;
    Ok(())
}

/// Adds the results of a reply to the task announced last. Its seat is joined to the caller's, and
/// its memory goes back to the bench.
fn add_reply<J: Job, B: OfficeName>(
    keeper: &mut Keeper<Task<J>, B>,
    bench: &mut Bench<J::Element, J::Part>,
    task: &Task<J>,
    seat: &mut PassSeat,
    found: &mut Vec<BlockResult<J::Element, J::Part>>,
    reply: Reply<J, B>,
) -> Result<(), AllocError>
    requires announced { keeper.old.work ≡ task.now ∷ [] }
    requires present { reply.ticket.number ≡ keeper.old.number }
    requires reply { IsReply J.meaning reply.ticket.work reply.seat reply.results }
    requires found { HasFound J.meaning task.now seat.old found.old.items }
    ensures same { keeper.new ≡ keeper.old }
    ensures found { OnOk result (HasFound J.meaning task.now seat.new found.new.items) }
{
    let Reply {
        ticket,
        seat: other,
        results,
        room,
    } = reply;
    bench.take_room(room);
    let Ok(results) = results else {
        return Ok(());
    };
    keeper.check(ticket);
    task.table.join(seat, other);
    add_results(found, results, &mut bench.results)
}

/// Keeps the memory of a reply that came too late: its room, and its results with their blocks.
fn keep_late_reply<J: Job, B: OfficeName>(
    bench: &mut Bench<J::Element, J::Part>,
    reply: Reply<J, B>,
) {
    let Reply {
        ticket: _,
        seat: _,
        results,
        room,
    } = reply;
    bench.take_room(room);
    if let Ok(results) = results {
        bench.take_results(results);
    }
}

/// Keeps the memory of all waiting replies. No pass may wait for them.
pub(crate) fn clear_link<J: Job, B: OfficeName>(link: &mut Link<J, B>) {
    for _ in 0..MOST_REPLIES {
        match link.next_reply() {
            Some(reply) => keep_late_reply(&mut link.bench, reply),
            None => return,
        }
    }
}

/// Adds the results of a kept thread, if it has replied to the task announced last. Returns whether
/// it has. Of a reply to an earlier task only the memory is kept.
pub(crate) fn take_reply<J: Job, B: OfficeName>(
    keeper: &mut Keeper<Task<J>, B>,
    link: &mut Link<J, B>,
    task: &Task<J>,
    seat: &mut PassSeat,
    found: &mut Vec<BlockResult<J::Element, J::Part>>,
) -> Result<bool, AllocError>
    requires announced { keeper.old.work ≡ task.now ∷ [] }
    requires found { HasFound J.meaning task.now seat.old found.old.items }
    ensures same { keeper.new ≡ keeper.old }
    ensures found { IfOk result (λ came. HasFound J.meaning task.now seat.new found.new.items) }
{
    let Some(reply) = link.next_reply() else {
        return Ok(false);
    };
    if reply.ticket.number() != keeper.number() {
        keep_late_reply(&mut link.bench, reply);
        return Ok(false);
    }
    add_reply(keeper, &mut link.bench, task, seat, found, reply)?;
    Ok(true)
}
