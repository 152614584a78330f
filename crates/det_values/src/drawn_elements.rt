//! The elements of a finished cycle, in the blocks that the workers wrote.
ghost use Rattle.std.specs.Prelude.{◌≡◌, ◌≤◌, ◌<◌, ◌+◌, ◌++◌, ◌∷◌, [], length, OnOk, OnErr};
ghost use Rattle.det_values.specs.Blocks.{joined};
ghost use Rattle.det_values.specs.Spelling.{an_element, IsExtended, SpellElements};

use crate::drawn_block::DrawnBlock;
use crate::drawn_blocks::{
    add_block, are_walks_equal, clear_block_draws, clear_drawn_blocks, ensure_drawn_block,
    extend_drawn, push_drawn, walk_drawn_blocks,
};
use crate::walk::Walk;
use std::alloc::{AllocError, Global};
use std::marker::Model;

/// The bytes and draws of each element of a finished cycle: at most 65,536 elements of at most 64
/// bytes each. They are in blocks, which are moved and never copied.
#[derive(Debug, Drop)]
pub struct DrawnElements {
    alloc: Global,
    blocks: Vec<DrawnBlock>,
    count: u32,
}

impl Model for DrawnElements {
    ghost use Rattle.std.specs.Prelude.{List, ◌≡◌, ◌≤◌, length};
    ghost use Rattle.det_values.specs.declared.frames.DrawnElement.{DrawnElement};
    ghost use Rattle.det_values.specs.Blocks.{joined};

    ghost Value = { List DrawnElement };

    ghost view = { λ f. joined f.blocks.items };

    ghost invariant = { λ f. (f.count ≡ length (joined f.blocks.items)) × (f.count ≤ 65536) };
}

impl DrawnElements {
    ghost use Rattle.det_values.specs.Frames.{all_without_draws};

    /// An empty list. It allocates nothing.
    pub fn new(alloc: Global) -> DrawnElements
        ensures { result ≡ [] }
    {
        DrawnElements {
            alloc,
            blocks: Vec::new(alloc),
            count: 0,
        }
    }

    /// An empty list that reuses the memory of a list of blocks.
    pub fn reuse_memory(alloc: Global, mut blocks: Vec<DrawnBlock>) -> DrawnElements
        ensures { result ≡ [] }
    {
        blocks.clear();
        DrawnElements {
            alloc,
            blocks,
            count: 0,
        }
    }

    /// The number of elements.
    pub fn len(&self) -> usize
        ensures len { result ≡ length self.now }
        ensures most { result ≤ 65536 }
    {
        self.count as usize
    }

    /// The blocks. Some may be empty.
    pub fn blocks(&self) -> &[DrawnBlock]
        ensures { joined result.now ≡ self.now }
    {
        self.blocks.as_slice()
    }

    /// Adds an element to the last block, or to a new one if there is none. A call that fails
    /// changes nothing.
    pub fn push(&mut self, bytes: &[u8], draws: u32) -> Result<(), AllocError>
        requires room { length self.old < 65536 }
        requires short { length bytes.now ≤ 64 }
        ensures ok { OnOk result (self.new ≡ self.old ++ an_element bytes.now draws ∷ []) }
        ensures err { OnErr result (self.new ≡ self.old) }
    {
        ensure_drawn_block(&mut self.blocks, self.alloc)?;
        push_drawn(&mut self.blocks, bytes, draws)?;
        self.count += 1;
        Ok(())
    }

    /// Moves a block to the end. A call that fails drops it and changes nothing.
    pub fn push_block(&mut self, block: DrawnBlock) -> Result<(), AllocError>
        requires { length self.old + length block ≤ 65536 }
        ensures ok { OnOk result (self.new ≡ self.old ++ block) }
        ensures err { OnErr result (self.new ≡ self.old) }
    {
        let more = block.len() as u32;
        add_block(&mut self.blocks, block)?;
        self.count += more;
        Ok(())
    }

    /// The blocks, for reuse of their memory.
    pub fn into_blocks(self) -> Vec<DrawnBlock> {
        let DrawnElements { blocks, .. } = self;
        blocks
    }

    /// Removes all elements, and keeps the memory of the first block.
    pub fn clear(&mut self)
        ensures { self.new ≡ [] }
    {
        clear_drawn_blocks(&mut self.blocks);
        self.count = 0;
    }

    /// Adds `count` elements, given as bytes of a record, by one copy to the last block. A call
    /// that fails changes nothing.
    pub fn extend_spelled(&mut self, spelled: &[u8], count: u32) -> Result<(), AllocError>
        requires room { length self.old + count ≤ 65536 }
        requires spelled { SpellElements spelled.now count }
        ensures ok { OnOk result (IsExtended spelled.now count self.old self.new) }
        ensures err { OnErr result (self.new ≡ self.old) }
    {
        ensure_drawn_block(&mut self.blocks, self.alloc)?;
        extend_drawn(&mut self.blocks, spelled, count)?;
        self.count += count;
        Ok(())
    }

    /// Sets all draws to 0.
    pub fn clear_draws(&mut self)
        ensures { self.new ≡ all_without_draws self.old }
    {
        clear_block_draws(self.blocks.as_mut_slice());
    }

    /// A walk over the elements in order.
    pub fn walk(&self) -> Walk<'_>
        ensures { result ≡ self.now }
    {
        walk_drawn_blocks(self.blocks.as_slice())
    }
}

impl PartialEq for DrawnElements {
    ghost use Rattle.std.specs.Cmp.Lexicographic.{pointwise};
    ghost use Rattle.det_values.specs.Equal.{drawn_eq, flat_laws};

    ghost eq = { λ a b. pointwise drawn_eq a b };

    ghost laws = { flat_laws };

    fn eq(&self, other: &DrawnElements) -> bool {
        if self.blocks.as_slice() == other.blocks.as_slice() {
            return true;
        }
        are_walks_equal(self.walk(), other.walk())
    }
}
