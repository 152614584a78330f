//! The work of one worker in a pass: it claims blocks and runs them.
ghost use Rattle.std.specs.Prelude.{◌≡◌, [], ◌+◌, ◌<◌, ◌≤◌, ◌⊎◌, IfOk, OnErr, IsTrue};
ghost use Rattle.job.specs.Passes.{IsReady, block_in, blocks_in};
ghost use Rattle.pass_in_blocks.specs.BlockAnswers.{AreRight, AreShown};
ghost use Rattle.pass_in_blocks.specs.ShownElements.{shown_in};
ghost use Rattle.worker_pool.specs.declared.pool_view.Mark.TheVariants.{Open};
ghost use Rattle.worker_pool.specs.declared.pool_view.PoolView.{PoolView};
ghost use Rattle.worker_pool.specs.Handles.{view_of, block_count, IsAt, IsSameSeat};
ghost use Rattle.worker_pool.specs.Results.{Stops, Tidy, Works};
ghost use Rattle.worker_pool.specs.Views.{Stands, taken, with_mark, mark_after, IsNew};

use crate::seat::{PassSeat, PassTable};
use job::{Job, PassRef, PassRoom};
use pass_in_blocks::{BlockResult, BlockResults, run_block};
use std::alloc::AllocError;

/// Marks the Open block, which was run, as Reported if it refused, and as Finished if it didn't.
/// Returns whether to go on.
fn end_block(table: &PassTable, seat: &mut PassSeat, block: u32, refused: bool) -> bool
    requires here { IsAt seat.old table.now }
    requires open { Stands block Open (view_of seat.old).entries }
    ensures seat { IsSameSeat seat.new seat.old }
    ensures view { view_of seat.new ≡ with_mark block (mark_after refused) (view_of seat.old) }
    ensures stops { ¬ IsTrue result → IsTrue refused }
{
    if refused {
        table.report(seat, block);
        false
    } else {
        table.finish(seat, block);
        true
    }
}

/// Tries to claim the next block and runs it. Returns whether to go on. A block above a known
/// refusal is skipped. The worker looks for a refusal once a block and not once an element, since a
/// look loads memory that all processors share.
fn try_block<J: Job>(
    table: &PassTable,
    seat: &mut PassSeat,
    pass: &PassRef<'_, J>,
    room: &mut PassRoom<J::Element, J::Part>,
    results: &mut BlockResults<J::Element, J::Part>,
) -> Result<bool, AllocError>
    requires here { IsAt seat.old table.now }
    requires ready { IsReady J.meaning J.Covers J.Own J.Fit pass.now }
    requires sized { block_count table.now ≡ blocks_in pass.now }
    requires more { (view_of seat.old).seen < block_count table.now }
    requires so_far { Works (block_in J.meaning pass.now) (view_of seat.old) results.old }
    requires shown { AreShown (shown_in J.meaning pass.now) results.old }
    ensures seat { IsSameSeat seat.new seat.old }
    ensures works { IfOk result (λ go.
        Works (block_in J.meaning pass.now) (view_of seat.new) results.new) }
    ensures seen { IfOk result (λ go. (view_of seat.new).seen ≡ (view_of seat.old).seen + 1) }
    ensures shares { IfOk result (λ go. (view_of seat.new).shares ≡ (view_of seat.old).shares) }
    ensures shown { IfOk result (λ go. AreShown (shown_in J.meaning pass.now) results.new) }
    ensures stops { IfOk result (λ go. ¬ IsTrue go → Stops (view_of seat.new).entries) }
    ensures given_up { OnErr result (view_of seat.new ≡ taken (view_of seat.old)) }
{
    let Some(block) = table.claim(seat) else {
        return Ok(true);
    };
    if table.look(seat, block) {
        return Ok(false);
    }
    let answer = run_block(pass, block, room)?;
    let refused = answer.is_refusal();
    results.push(BlockResult { block, answer })?;
    Ok(end_block(table, seat, block, refused))
}

/// An empty list of results in the memory of `list`. It reserves room for `count` results at once;
/// if that fails, it grows later.
fn reuse_list<E: Drop, P: Drop>(
    mut list: Vec<BlockResult<E, P>>,
    count: usize,
) -> BlockResults<E, P>
    ensures { result ≡ [] }
{
    list.clear();
    let _ = list.reserve(count).is_ok();
    BlockResults::from_vec(list)
}

/// Claims and runs blocks until each block of the pass was tried, or a refusal is known.
///
/// If memory runs out, the worker stops, its block stays Open, and its results are lost.
pub fn work_blocks<J: Job>(
    table: &PassTable,
    seat: &mut PassSeat,
    pass: &PassRef<'_, J>,
    room: &mut PassRoom<J::Element, J::Part>,
    list: Vec<BlockResult<J::Element, J::Part>>,
) -> Result<BlockResults<J::Element, J::Part>, AllocError>
    requires here { IsAt seat.old table.now }
    requires ready { IsReady J.meaning J.Covers J.Own J.Fit pass.now }
    requires sized { block_count table.now ≡ blocks_in pass.now }
    requires new { IsNew (view_of seat.old) }
    ensures seat { IsSameSeat seat.new seat.old }
    ensures right { IfOk result (AreRight (block_in J.meaning pass.now) (blocks_in pass.now)) }
    ensures works { IfOk result (Works (block_in J.meaning pass.now) (view_of seat.new)) }
    ensures shown { IfOk result (AreShown (shown_in J.meaning pass.now)) }
    ensures inside { IfOk result (λ results. (view_of seat.new).seen ≤ block_count table.now) }
    ensures shares { (view_of seat.new).shares ≡ (view_of seat.old).shares }
    ensures all_tried { IfOk result (λ results.
        ((view_of seat.new).seen ≡ block_count table.now) ⊎ Stops (view_of seat.new).entries) }
    // The last entry is Open, and the others are as after Ok.
    ensures given_up { OnErr result ((before : PoolView)
        × Tidy (block_in J.meaning pass.now) before
        × (before.seen < block_count table.now) × (view_of seat.new ≡ taken before)) }
{
    let mut results = reuse_list(list, table.blocks() as usize);
    'each: while seat.seen() < table.blocks() {
        if !try_block(table, seat, pass, room, &mut results)? {
            return Ok(results);
        }
    }
    Ok(results)
}
