//! Writes the bytes of a block's new elements, as a frame holds them.
ghost use Rattle.std.specs.Prelude.{◌≡◌, ◌<◌, ◌≤◌, ◌++◌, [], length, OnOk, IfOk, Ok};
ghost use Rattle.std.specs.List.{All};
ghost use Rattle.det_values.specs.Spelling.{an_element, spelled_drawn, spelled_all, IsDrawn};
ghost use Rattle.job.specs.Cycle.{shown_with};
ghost use Rattle.job.specs.Passes.{IsReady, block_in, blocks_in};
ghost use Rattle.pass_in_blocks.specs.ShownElements.{AreSpelled, shown_by, shown_in};
ghost use Rattle.pass_in_blocks.specs.Steps.{pass_result};

use crate::draws::block_sums;
use det_values::{DrawnBlock, Spares};
use job::{Job, PassRef, PassRoom};
use std::alloc::AllocError;

/// Appends an element with its draws.
#[inline(always)]
fn put_drawn_element<J: Job>(
    job: &J,
    element: &J::Element,
    draws: u32,
    out: &mut Vec<u8>,
) -> Result<(), AllocError>
    requires { J.Own job.now element.now }
    ensures ok { OnOk result (out.new.items ≡ out.old.items
        ++ spelled_drawn (an_element (J.meaning.shown job.now element.now) draws)) }
    ensures fields { OnOk result (
        IsDrawn (an_element (J.meaning.shown job.now element.now) draws)) }
{
    job.put_drawn(element, draws, out)?;
    Ok(())
}

/// Appends the elements of a block.
fn put_block<J: Job>(
    job: &J,
    elements: &[J::Element],
    draws: &[u32],
    out: &mut Vec<u8>,
) -> Result<(), AllocError>
    requires own { All (J.Own job.now) elements.now }
    requires drew { length draws.now ≡ length elements.now }
    ensures ok { OnOk result (out.new.items ≡ out.old.items
        ++ spelled_all (shown_with J.meaning job.now elements.now draws.now)) }
    ensures fields { OnOk result (
        All IsDrawn (shown_with J.meaning job.now elements.now draws.now)) }
{
    for i in 0..elements.len() {
        put_drawn_element(job, &elements[i], draws[i], out)?;
    }
    Ok(())
}

/// Appends a block's new elements, each with its draws in all passes up to this one.
fn put_block_result<J: Job>(
    pass: &PassRef<'_, J>,
    block: u32,
    elements: &[J::Element],
    draws: &[u32],
    spares: &mut Spares<u32>,
    out: &mut Vec<u8>,
) -> Result<(), AllocError>
    requires ready { IsReady J.meaning J.Covers J.Own J.Fit pass.now }
    requires inside { block < blocks_in pass.now }
    requires done { (part : J.Part)
        × (block_in J.meaning pass.now block ≡ Ok (pass_result elements.now draws.now part)) }
    ensures { OnOk result (AreSpelled (shown_by J.meaning pass.now block
        (block_in J.meaning pass.now block)) out.old.items out.new.items) }
{
    let Some(earlier) = pass.earlier_block(block) else {
        return put_block(pass.job(), elements, draws, out);
    };
    let draw_sums = block_sums(earlier, draws, spares)?;
    put_block(pass.job(), elements, draw_sums.as_slice(), out)?;
    spares.keep_block(draw_sums);
    Ok(())
}

/// An empty list with room for `count` elements as long as this one.
fn room_for<J: Job>(
    job: &J,
    element: &J::Element,
    count: usize,
    mut bytes: Vec<u8>,
) -> Result<Vec<u8>, AllocError>
    requires own { J.Own job.now element.now }
    requires few { count ≤ 256 }
    requires none { bytes.items ≡ [] }
    ensures { IfOk result (λ bytes. bytes.items ≡ []) }
{
    job.put_element(element, &mut bytes)?;
    let length = count * (2 + bytes.len() + 4);
    bytes.clear();
    bytes.reserve(length)?;
    Ok(bytes)
}

/// The bytes of a block's new elements, each with its draws. It is empty if the pass doesn't show
/// its elements. The worker that ran the block writes them, while the elements are in that
/// processor's cache.
pub(crate) fn show_block<J: Job>(
    pass: &PassRef<'_, J>,
    block: u32,
    elements: &[J::Element],
    draws: &[u32],
    room: &mut PassRoom<J::Element, J::Part>,
) -> Result<DrawnBlock, AllocError>
    requires ready { IsReady J.meaning J.Covers J.Own J.Fit pass.now }
    requires inside { block < blocks_in pass.now }
    requires done { (part : J.Part)
        × (block_in J.meaning pass.now block ≡ Ok (pass_result elements.now draws.now part)) }
    ensures { IfOk result (λ shown. shown ≡ shown_in J.meaning pass.now block) }
{
    if !pass.shows() {
        return Ok(DrawnBlock::new(room.alloc()));
    }
    let mut bytes = room_for(pass.job(), &elements[0], elements.len(), room.bytes())?;
    put_block_result(pass, block, elements, draws, &mut room.draws, &mut bytes)?;
    Ok(DrawnBlock::from_spelled(bytes, elements.len() as u32))
}
