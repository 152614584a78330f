//! One task for all kept threads of a crew, and the collection of their replies.
ghost use Rattle.std.specs.Prelude.{◌≡◌, ◌+◌, ◌<◌, ◌≤◌, ◌^◌, [], ◌∷◌, length, IfOk};
ghost use Rattle.std.specs.Arc.{arc_value};
ghost use Rattle.worker_pool.specs.Handles.{view_of, IsAt, IsSameSeat};
ghost use Rattle.worker_pool.specs.Messages.{IsTask, HasFound};
ghost use Rattle.worker_pool.specs.Views.{IsNew, fresh, all_shares};

use crate::gate::Gate;
use crate::link::{Link, give, take_reply, work_on_task};
use crate::seat::PassSeat;
use crate::task::Task;
use job::{Job, PassRoom};
use pass_in_blocks::BlockResult;
use std::alloc::{AllocError, Global};
use std::sync::Arc;
use std::{hint, slice, thread};
use tickets::{Keeper, OfficeName};

/// The number of looks for replies after which the caller runs the missing blocks itself: about a
/// millisecond. When no block is left to claim, each other worker runs at most one block. So with a
/// processor for each worker this is enough for blocks of a fifth of a millisecond and more. On a
/// busy machine the caller soon goes on by itself.
const MOST_LOOKS: u32 = 20_000;

/// The number of looks after which the caller yields once.
const BUSY_LOOKS: u32 = 8_192;

/// Gives the task to each kept thread, and returns the number of those that got it. A worker that
/// can't get it passes the gate here.
fn give_all<J: Job, B: OfficeName, G: Gate>(
    keeper: &mut Keeper<Task<J>, B>,
    links: &mut [Link<J, B>],
    task: &Arc<Task<J>, Global>,
    seat: &mut PassSeat,
    gate: &G,
) -> u32
    requires few { length links.old ≤ 63 }
    requires announced { keeper.old.work ≡ arc_value task.now ∷ [] }
    requires task { IsTask J.meaning J.Covers J.Own J.Fit (arc_value task.now) }
    requires here { IsAt seat.old (arc_value task.now).table }
    requires fresh { view_of seat.old ≡ fresh all_shares }
    ensures same { keeper.new ≡ keeper.old }
    ensures seat { IsSameSeat seat.new seat.old }
    ensures new { IsNew (view_of seat.new) }
{
    let mut given = 0u32;
    let mut worker = 1u32;
    'each: for link in links {
        if give(keeper, link, task, seat) {
            given += 1;
        } else {
            gate.enter(worker);
        }
        worker += 1;
    }
    given
}

/// Looks once for the reply of each kept thread, and returns the number that came.
fn take_replies<J: Job, B: OfficeName>(
    keeper: &mut Keeper<Task<J>, B>,
    links: &mut [Link<J, B>],
    task: &Task<J>,
    seat: &mut PassSeat,
    found: &mut Vec<BlockResult<J::Element, J::Part>>,
) -> Result<u32, AllocError>
    requires announced { keeper.old.work ≡ task.now ∷ [] }
    requires found { HasFound J.meaning task.now seat.old found.old.items }
    ensures same { keeper.new ≡ keeper.old }
    ensures found { IfOk result (λ came. HasFound J.meaning task.now seat.new found.new.items) }
{
    let mut came = 0u32;
    'each: for link in links {
        if take_reply(keeper, link, task, seat, found)? {
            came = came.saturating_add(1);
        }
    }
    Ok(came)
}

/// Adds the replies that come in time, while blocks are missing.
fn collect_replies<J: Job, B: OfficeName>(
    keeper: &mut Keeper<Task<J>, B>,
    links: &mut [Link<J, B>],
    task: &Task<J>,
    seat: &mut PassSeat,
    found: &mut Vec<BlockResult<J::Element, J::Part>>,
    given: u32,
) -> Result<(), AllocError>
    requires announced { keeper.old.work ≡ task.now ∷ [] }
    requires found { HasFound J.meaning task.now seat.old found.old.items }
    ensures { IfOk result (λ done. HasFound J.meaning task.now seat.new found.new.items) }
{
    let blocks = task.table.blocks() as usize;
    let mut missing = given;
    'look: for look in 0..MOST_LOOKS {
        if missing == 0 || found.len() >= blocks {
            break;
        }
        let came = take_replies(keeper, links, task, seat, found)?;
        missing = missing.saturating_sub(came);
        if look % BUSY_LOOKS == BUSY_LOOKS - 1 {
            thread::yield_now();
        } else {
            hint::spin_loop();
        }
    }
    Ok(())
}

/// The results of a task by the caller and the kept threads. Some blocks may be missing, but none
/// that the caller claimed.
pub(crate) fn work_together<J: Job, B: OfficeName, G: Gate>(
    keeper: &mut Keeper<Task<J>, B>,
    links: &mut [Link<J, B>],
    task: &Arc<Task<J>, Global>,
    seat: &mut PassSeat,
    gate: &G,
    room: &mut PassRoom<J::Element, J::Part>,
) -> Result<Vec<BlockResult<J::Element, J::Part>>, AllocError>
    requires room { keeper.old.number < 2 ^ 63 }
    requires few { length links.old ≤ 63 }
    requires task { IsTask J.meaning J.Covers J.Own J.Fit (arc_value task.now) }
    requires here { IsAt seat.old (arc_value task.now).table }
    requires fresh { view_of seat.old ≡ fresh all_shares }
    ensures { IfOk result (λ found.
        HasFound J.meaning (arc_value task.now) seat.new found.items) }
{
    keeper.announce(slice::from_ref(&**task));
    let given = give_all(keeper, links, task, seat, gate);
    gate.enter(0);
    let list = Vec::with_capacity(room.alloc(), task.table.blocks() as usize)?;
    let mut found = work_on_task(&**task, seat, room, list)?;
    collect_replies(keeper, links, &**task, seat, &mut found, given)?;
    Ok(found)
}
