//! The steps that add elements to the blocks of a `Container`, on the plain list of blocks.
ghost use Rattle.std.specs.Prelude.{◌≡◌, ◌+◌, ◌≤◌, ◌%◌, ◌++◌, ◌∷◌, [], length};
ghost use Rattle.std.specs.Bool.{OnTrue, OnFalse};
ghost use Rattle.det_values.specs.Blocks.{joined, AreBlocks, HasRoom, AreFull, block_items, Adds};

use crate::Spares;
use std::alloc::{AllocError, Global};

/// Adds an item, and returns whether there was memory for it. Otherwise the item is dropped.
pub(crate) fn try_push<T: Drop>(items: &mut Vec<T>, item: T) -> bool
    ensures yes { OnTrue result (items.new.items ≡ items.old.items ++ item ∷ []) }
    ensures no { OnFalse result (items.new.items ≡ items.old.items) }
{
    items.push(item).is_ok()
}

/// Whether the last block isn't full.
pub(crate) fn last_block_has_room<E>(blocks: &Vec<Vec<E>>) -> bool
    requires { AreBlocks (block_items blocks.now.items) }
    ensures yes { OnTrue result (HasRoom (block_items blocks.now.items)) }
    ensures no { OnFalse result (AreFull (block_items blocks.now.items)) }
{
    let count = blocks.len();
    if count == 0 {
        return false;
    }
    if blocks[count - 1].len() < 256 {
        return true;
    }
    false
}

/// Adds an element to the last block. A call that fails drops it and changes nothing.
pub(crate) fn add_to_last<E: Drop>(blocks: &mut Vec<Vec<E>>, item: E) -> Result<(), AllocError>
    requires blocks { AreBlocks (block_items blocks.old.items) }
    requires room { HasRoom (block_items blocks.old.items) }
    ensures { Adds result blocks.old.items blocks.new.items (item ∷ []) }
{
    let count = blocks.len();
    let last = &mut blocks[count - 1];
    if try_push(last, item) {
        return Ok(());
    }
    Err(AllocError)
}

/// Adds a block of one element. A call that fails drops it and changes nothing.
pub(crate) fn add_block<E: Drop>(
    blocks: &mut Vec<Vec<E>>,
    alloc: Global,
    item: E,
) -> Result<(), AllocError>
    requires blocks { AreBlocks (block_items blocks.old.items) }
    requires full { AreFull (block_items blocks.old.items) }
    ensures { Adds result blocks.old.items blocks.new.items (item ∷ []) }
{
    let mut block = Vec::new(alloc);
    if !try_push(&mut block, item) {
        return Err(AllocError);
    }
    if try_push(blocks, block) {
        return Ok(());
    }
    Err(AllocError)
}

/// Moves elements to the end of the last block, and gives their empty list to `spares`. A call that
/// fails drops them and changes nothing.
pub(crate) fn append_to_last<E: Drop>(
    blocks: &mut Vec<Vec<E>>,
    mut more: Vec<E>,
    spares: &mut Spares<E>,
) -> Result<(), AllocError>
    requires blocks { AreBlocks (block_items blocks.old.items) }
    requires room { HasRoom (block_items blocks.old.items) }
    requires together { length (joined (block_items blocks.old.items)) % 256 + length more.items
        ≤ 256 }
    ensures { Adds result blocks.old.items blocks.new.items more.items }
{
    let count = blocks.len();
    let last = &mut blocks[count - 1];
    last.append(&mut more)?;
    spares.keep_block(more);
    Ok(())
}
