//! The steps of `DrawnElements` on its plain list of blocks: adding, clearing and comparing.
ghost use Rattle.std.specs.Prelude.{◌≡◌, ◌≤◌, ◌<◌, ◌+◌, ◌++◌, ◌∷◌, [], length, OnOk, OnErr};
ghost use Rattle.std.specs.Cmp.Lexicographic.{pointwise};
ghost use Rattle.det_values.specs.Blocks.{joined};
ghost use Rattle.det_values.specs.Spelling.{an_element, IsExtended, SpellElements};
ghost use Rattle.det_values.specs.Equal.{drawn_eq};
ghost use Rattle.det_values.specs.Frames.{all_without_draws};

use crate::block_walk::BlockWalk;
use crate::drawn_block::DrawnBlock;
use crate::walk::Walk;
use std::alloc::{AllocError, Global};

/// Adds a block at the end. A call that fails drops it and changes nothing.
pub(crate) fn add_block(blocks: &mut Vec<DrawnBlock>, block: DrawnBlock) -> Result<(), AllocError>
    ensures ok { OnOk result (blocks.new.items ≡ blocks.old.items ++ block ∷ []) }
    ensures err { OnErr result (blocks.new.items ≡ blocks.old.items) }
{
    blocks.push(block)?;
    Ok(())
}

/// Adds an empty block if there is no block.
pub(crate) fn ensure_drawn_block(
    blocks: &mut Vec<DrawnBlock>,
    alloc: Global,
) -> Result<(), AllocError>
    ensures same { joined blocks.new.items ≡ joined blocks.old.items }
    ensures some { OnOk result (0 < length blocks.new.items) }
{
    if blocks.len() > 0 {
        return Ok(());
    }
    add_block(blocks, DrawnBlock::new(alloc))
}

/// Adds an element to the last block. A call that fails changes nothing.
pub(crate) fn push_drawn(
    blocks: &mut Vec<DrawnBlock>,
    bytes: &[u8],
    draws: u32,
) -> Result<(), AllocError>
    requires some { 0 < length blocks.old.items }
    requires room { length (joined blocks.old.items) < 65536 }
    requires short { length bytes.now ≤ 64 }
    ensures ok { OnOk result (joined blocks.new.items ≡ joined blocks.old.items
        ++ an_element bytes.now draws ∷ []) }
    ensures err { OnErr result (joined blocks.new.items ≡ joined blocks.old.items) }
{
    let last = blocks.len() - 1;
    blocks[last].push(bytes, draws)
}

/// Adds `count` elements, given as bytes of a record, to the last block. A call that fails changes
/// nothing.
pub(crate) fn extend_drawn(
    blocks: &mut Vec<DrawnBlock>,
    spelled: &[u8],
    count: u32,
) -> Result<(), AllocError>
    requires some { 0 < length blocks.old.items }
    requires room { length (joined blocks.old.items) + count ≤ 65536 }
    requires spelled { SpellElements spelled.now count }
    ensures ok { OnOk result (IsExtended spelled.now count (joined blocks.old.items)
        (joined blocks.new.items)) }
    ensures err { OnErr result (joined blocks.new.items ≡ joined blocks.old.items) }
{
    let last = blocks.len() - 1;
    blocks[last].extend_spelled(spelled, count)
}

/// Removes all elements, and keeps the memory of the first block.
pub(crate) fn clear_drawn_blocks(blocks: &mut Vec<DrawnBlock>)
    ensures { joined blocks.new.items ≡ [] }
{
    blocks.truncate(1);
    if blocks.len() > 0 {
        blocks[0].clear();
    }
}

/// Sets all draws to 0.
pub(crate) fn clear_block_draws(blocks: &mut [DrawnBlock])
    ensures { joined blocks.new ≡ all_without_draws (joined blocks.old) }
{
    'each: for index in 0..blocks.len() {
        blocks[index].clear_draws();
    }
}

/// A walk over the elements of all blocks in order.
pub(crate) fn walk_drawn_blocks(blocks: &[DrawnBlock]) -> Walk<'_>
    ensures { result ≡ joined blocks.now }
{
    Walk {
        here: BlockWalk { rest: &[], left: 0 },
        behind: blocks,
    }
}

/// Whether the remaining elements of two walks are equal. The blocks may be cut differently.
pub(crate) fn are_walks_equal(left: Walk<'_>, right: Walk<'_>) -> bool
    ensures { result ≡ pointwise drawn_eq left.entry right.entry }
{
    let mut left = left;
    let mut right = right;
    'elements: loop {
        match left.next() {
            Some(element) => match right.next() {
                Some(other) => {
                    if element != other {
                        return false;
                    }
                }
                None => return false,
            },
            None => return right.next().is_none(),
        }
    }
}
