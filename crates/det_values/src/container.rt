//! The list of elements, held in blocks, so that a pool can move a finished block and copies none.
ghost use Rattle.std.specs.Prelude.{◌≡◌, ℕ, ◌≤◌, ◌<◌, ◌+◌, ◌*◌, ◌%◌, ◌++◌, ◌∷◌, [], length, take};
ghost use Rattle.std.specs.Prelude.{drop};
ghost use Rattle.std.specs.Prelude.{slice_index_or, OnOk, OnErr, IfOk, IsTrue, ◌↔◌};
ghost use Rattle.det_values.specs.Blocks.{joined, AreBlocks, block_items};

use crate::Spares;
use crate::container_blocks::{
    add_block, add_to_last, append_to_last, last_block_has_room, try_push,
};
use std::alloc::{AllocError, Global};
use std::marker::Model;

/// The elements of a job, or one value for each of them: at most 65,536, in blocks of 256. The last
/// block may be shorter. A worker of a pass runs one such block or a quarter of one. Larger blocks
/// mean fewer claims. Quarters leave work for all workers if there are few elements.
#[derive(Debug, Drop)]
pub struct Container<E> {
    blocks: Vec<Vec<E>>,
}

impl<E> Model for Container<E> {
    ghost use Rattle.std.specs.Prelude.{List, ◌≤◌, length};
    ghost use Rattle.det_values.specs.Blocks.{joined, AreBlocks, block_items};

    ghost Value = { List E };

    ghost view = { λ c. joined (block_items c.blocks.items) };

    ghost invariant = { λ c. AreBlocks (block_items c.blocks.items)
        × (length (joined (block_items c.blocks.items)) ≤ 65536) };
}

impl<E> Container<E> {
    /// An empty container. It allocates nothing.
    pub fn new(alloc: Global) -> Container<E>
        ensures { result ≡ [] }
    {
        Container {
            blocks: Vec::new(alloc),
        }
    }

    /// An empty container with room for the list of blocks of `elements` elements. The blocks
    /// themselves are allocated later.
    pub fn with_room(alloc: Global, elements: usize) -> Result<Container<E>, AllocError>
        requires { elements ≤ 65536 }
        ensures { IfOk result (λ container. container ≡ []) }
    {
        Ok(Container {
            blocks: Vec::with_capacity(alloc, (elements + 255) / 256)?,
        })
    }

    /// An empty container that reuses the memory of an empty list of blocks.
    pub(crate) fn from_no_blocks(blocks: Vec<Vec<E>>) -> Container<E>
        requires { blocks.items ≡ [] }
        ensures { result ≡ [] }
    {
        Container { blocks }
    }

    /// The blocks, for reuse of their memory.
    pub(crate) fn into_blocks(self) -> Vec<Vec<E>>
    where
        E: Drop,
    {
        let Container { blocks } = self;
        blocks
    }

    /// The number of elements.
    pub fn len(&self) -> usize
        ensures len { result ≡ length self.now }
        ensures most { result ≤ 65536 }
    {
        let count = self.blocks.len();
        if count == 0 {
            return 0;
        }
        256 * (count - 1) + self.blocks[count - 1].len()
    }

    /// Whether there is no element.
    pub fn is_empty(&self) -> bool
        ensures { IsTrue result ↔ (length self.now ≡ 0) }
    {
        self.len() == 0
    }

    /// The element at an index, counted from 0.
    pub fn item(&self, index: usize) -> &E
        requires { index < length self.now }
        ensures { result.now ≡ slice_index_or self.now index result.now }
    {
        &self.blocks[index / 256][index % 256]
    }

    /// The elements of block `number`, counted from 0: 256, or fewer in the last block.
    pub fn block(&self, number: usize) -> &[E]
        requires { 256 * number < length self.now }
        ensures { result.now ≡ take 256 (drop (256 * number) self.now) }
    {
        self.blocks[number].as_slice()
    }

    /// The elements from index `first` on, at most `most` of them, all in one block.
    pub fn part(&self, first: usize, most: usize) -> &[E]
        requires inside { first < length self.now }
        requires together { first % 256 + most ≤ 256 }
        ensures { result.now ≡ take most (drop first self.now) }
    {
        let block = self.blocks[first / 256].as_slice();
        let at = first % 256;
        &block[at..block.len().min(at + most)]
    }

    /// The number of blocks.
    pub fn blocks(&self) -> usize
        ensures enough { length self.now ≤ 256 * result }
        ensures no_more { (b : ℕ) → b < result → 256 * b < length self.now }
    {
        self.blocks.len()
    }

    /// Adds an element at the end. A call that fails drops it and changes nothing.
    pub fn push(&mut self, alloc: Global, item: E) -> Result<(), AllocError>
    where
        E: Drop,
        requires { length self.old < 65536 }
        ensures ok { OnOk result (self.new ≡ self.old ++ item ∷ []) }
        ensures err { OnErr result (self.new ≡ self.old) }
    {
        if last_block_has_room(&self.blocks) {
            add_to_last(&mut self.blocks, item)
        } else {
            add_block(&mut self.blocks, alloc, item)
        }
    }

    /// Moves these elements to the end, into one block of 256. If they join others in that block,
    /// `spares` gets their list. A call that fails drops them and changes nothing.
    pub fn push_block(&mut self, block: Vec<E>, spares: &mut Spares<E>) -> Result<(), AllocError>
    where
        E: Drop,
        requires some { 0 < length block.items }
        requires together { length self.old % 256 + length block.items ≤ 256 }
        requires room { length self.old + length block.items ≤ 65536 }
        ensures ok { OnOk result (self.new ≡ self.old ++ block.items) }
        ensures err { OnErr result (self.new ≡ self.old) }
    {
        if last_block_has_room(&self.blocks) {
            return append_to_last(&mut self.blocks, block, spares);
        }
        if try_push(&mut self.blocks, block) {
            return Ok(());
        }
        Err(AllocError)
    }
}
