//! Memory of containers, kept for reuse in later passes and cycles.
ghost use Rattle.std.specs.Prelude.{◌≡◌, ◌≤◌, [], IfOk};

use crate::Container;
use std::alloc::{AllocError, Global};

/// Free blocks and containers, and the allocator for more. Their old contents are gone, so no
/// clause is about what is kept here.
#[derive(Drop)]
pub struct Spares<E> {
    alloc: Global,
    blocks: Vec<Vec<E>>,
    containers: Vec<Vec<Vec<E>>>,
}

impl<E: Drop> Spares<E> {
    /// No spares. It allocates nothing.
    pub fn new(alloc: Global) -> Spares<E> {
        Spares {
            alloc,
            blocks: Vec::new(alloc),
            containers: Vec::new(alloc),
        }
    }

    /// An empty list: a spare one, or a new one with room for a block of 256 elements.
    pub fn block(&mut self) -> Result<Vec<E>, AllocError>
        ensures { IfOk result (λ block. block.items ≡ []) }
    {
        if let Some(mut block) = self.blocks.pop() {
            block.clear();
            return Ok(block);
        }
        Ok(Vec::with_capacity(self.alloc, 256)?)
    }

    /// An empty container: a spare one, or a new one with room for the blocks of `elements`
    /// elements.
    pub fn container(&mut self, elements: usize) -> Result<Container<E>, AllocError>
        requires { elements ≤ 65536 }
        ensures { IfOk result (λ container. container ≡ []) }
    {
        if let Some(mut blocks) = self.containers.pop() {
            blocks.clear();
            return Ok(Container::from_no_blocks(blocks));
        }
        Container::with_room(self.alloc, elements)
    }

    /// Keeps a block for its memory. If there is no memory to keep it here, it is dropped.
    pub fn keep_block(&mut self, block: Vec<E>) {
        let _ = self.blocks.push(block).is_ok();
    }

    /// Keeps a container and its blocks in the same way.
    pub fn keep(&mut self, container: Container<E>) {
        let mut blocks = container.into_blocks();
        'each: while let Some(block) = blocks.pop() {
            self.keep_block(block);
        }
        let _ = self.containers.push(blocks).is_ok();
    }

    /// The number of spare blocks.
    pub fn blocks(&self) -> usize {
        self.blocks.len()
    }

    /// Moves `count` spare blocks to `other`, or all if there are fewer.
    pub fn give(&mut self, other: &mut Spares<E>, count: usize) {
        for _ in 0..count {
            match self.blocks.pop() {
                Some(block) => other.keep_block(block),
                None => return,
            }
        }
    }
}
