//! Makes the result of a pass from the results of its blocks.
ghost use Rattle.std.specs.Prelude.{◌≡◌, ◌<◌, ◌≤◌, ◌+◌, ◌++◌, [], None, length, replicate};
ghost use Rattle.std.specs.Prelude.{slice_set};
ghost use Rattle.std.specs.Prelude.{IfOk, OnOk};
ghost use Rattle.job.specs.Passes.{IsReady, IsAnswer, block_in, blocks_in, pass_result_of};
ghost use Rattle.pass_in_blocks.specs.BlockAnswers.{left_by, answer_of, Shows, AreRight, AreShown};
ghost use Rattle.pass_in_blocks.specs.ShownElements.{shown_in};
ghost use Rattle.pass_in_blocks.specs.Steps.{beside, none_in, CanJoin, ArePlaces};

use crate::block_answer::{BlockAnswer, BlockDone, BlockResult};
use crate::block_run::{push, run_block};
use det_values::DrawnElements;
use job::{Job, PassDone, PassRef, PassRoom, PoolFault};
use std::alloc::{AllocError, Global};

/// A list of `count` empty places.
fn empty_places<T: Drop>(alloc: Global, count: usize) -> Result<Vec<Option<T>>, AllocError>
    ensures { IfOk result (λ places. places.items ≡ replicate count None) }
{
    let mut places = Vec::with_capacity(alloc, count)?;
    'fill: while places.len() < count {
        push(&mut places, None)?;
    }
    Ok(places)
}

/// Replaces the content of a place.
fn put_at<T: Drop>(places: &mut Vec<T>, at: usize, content: T)
    requires { at < length places.old.items }
    ensures { places.new.items ≡ slice_set places.old.items at content }
{
    places[at] = content;
}

/// The results by number of block. Without results the list is empty.
fn results_by_block<J: Job>(
    alloc: Global,
    pass: &PassRef<'_, J>,
    mut results: Vec<BlockResult<J::Element, J::Part>>,
) -> Result<Vec<Option<BlockAnswer<J::Element, J::Part>>>, AllocError>
    requires right { AreRight (block_in J.meaning pass.now) (blocks_in pass.now) results.items }
    requires shown { AreShown (shown_in J.meaning pass.now) results.items }
    ensures { IfOk result (λ places. ArePlaces (block_in J.meaning pass.now)
        (shown_in J.meaning pass.now) places.items) }
{
    if results.is_empty() {
        return Ok(Vec::new(alloc));
    }
    let mut places = empty_places(alloc, pass.blocks() as usize)?;
    'place: while let Some(BlockResult { block, answer }) = results.pop() {
        put_at(&mut places, block as usize, Some(answer));
    }
    Ok(places)
}

/// The result of a block: taken from its place, or by running the block here if the place is empty.
fn take_or_run_block<J: Job>(
    pass: &PassRef<'_, J>,
    places: &mut Vec<Option<BlockAnswer<J::Element, J::Part>>>,
    block: u32,
    room: &mut PassRoom<J::Element, J::Part>,
) -> Result<BlockAnswer<J::Element, J::Part>, AllocError>
    requires ready { IsReady J.meaning J.Covers J.Own J.Fit pass.now }
    requires inside { block < blocks_in pass.now }
    requires places { ArePlaces (block_in J.meaning pass.now) (shown_in J.meaning pass.now)
        places.old.items }
    ensures right { IfOk result (λ answer. answer_of answer ≡ block_in J.meaning pass.now block) }
    ensures shown { IfOk result (Shows (shown_in J.meaning pass.now block)) }
    ensures left { ArePlaces (block_in J.meaning pass.now) (shown_in J.meaning pass.now)
        places.new.items }
{
    let place = block as usize;
    if place < places.len() {
        if let Some(answer) = places[place].take() {
            return Ok(answer);
        }
    }
    run_block(pass, block, room)
}

/// The result of a pass before its first block, with room for all blocks.
fn begin_pass<J: Job>(
    pass: &PassRef<'_, J>,
    room: &mut PassRoom<J::Element, J::Part>,
) -> Result<PassDone<J::Element, J::Part>, AllocError>
    ensures passed { IfOk result (λ begun. pass_result_of begun ≡ none_in J.meaning pass.now) }
    ensures shown { IfOk result (λ begun. begun.shown ≡ []) }
{
    Ok(PassDone {
        elements: room.elements.container(pass.count())?,
        draws: room.draws.container(pass.count())?,
        part: pass.job().unit(room.alloc(), &mut room.part()),
        shown: if pass.shows() {
            room.frame()
        } else {
            DrawnElements::new(room.alloc())
        },
    })
}

/// Adds a block to those before it. `room` keeps its part.
fn join_block<J: Job>(
    job: &J,
    all: &mut PassDone<J::Element, J::Part>,
    done: BlockDone<J::Element, J::Part>,
    room: &mut PassRoom<J::Element, J::Part>,
) -> Result<(), AllocError>
    requires joins { CanJoin J.Covers job.now (pass_result_of all.old) (left_by done) }
    requires shown { length all.old.shown + length done.shown ≤ 65536 }
    ensures passed { OnOk result (pass_result_of all.new
        ≡ beside (J.meaning.joined job.now) (pass_result_of all.old) (left_by done)) }
    ensures shown { OnOk result (all.new.shown ≡ all.old.shown ++ done.shown) }
{
    let mut next = done.part;
    all.elements.push_block(done.elements, &mut room.elements)?;
    all.draws.push_block(done.draws, &mut room.draws)?;
    job.merge(&mut all.part, &mut next)?;
    room.keep_part(next);
    if done.shown.is_empty() {
        return Ok(());
    }
    all.shown.push_block(done.shown)
}

/// The result of a pass, from results of its blocks in any order. A block without a result is run
/// here. The first block that refuses, by number, ends the pass.
pub fn finish_pass<J: Job>(
    pass: &PassRef<'_, J>,
    results: Vec<BlockResult<J::Element, J::Part>>,
    room: &mut PassRoom<J::Element, J::Part>,
) -> Result<PassDone<J::Element, J::Part>, PoolFault>
    requires ready { IsReady J.meaning J.Covers J.Own J.Fit pass.now }
    requires right { AreRight (block_in J.meaning pass.now) (blocks_in pass.now) results.items }
    requires shown { AreShown (shown_in J.meaning pass.now) results.items }
    ensures { IsAnswer J.meaning J.Covers J.Own pass.now result }
{
    let mut places = results_by_block(room.alloc(), pass, results)?;
    let mut all = begin_pass(pass, room)?;
    'join: for b in 0..pass.blocks() {
        match take_or_run_block(pass, &mut places, b, room)? {
            BlockAnswer::Done(done) => join_block(pass.job(), &mut all, done, room)?,
            BlockAnswer::Refused { element, code } => {
                room.keep_pass(all);
                return Err(PoolFault::Refused { element, code });
            }
        }
    }
    Ok(all)
}
