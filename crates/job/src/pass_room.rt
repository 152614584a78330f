//! Memory that passes reuse. It is apart from `PassDone`, since it outlives a pass.
ghost use Rattle.std.specs.Prelude.{◌≡◌, []};

use crate::PassDone;
use det_values::{DrawnBlock, DrawnElements, Spares};
use std::alloc::Global;

/// Memory that passes reuse, and the allocator for more. Its old contents are gone, so no clause is
/// about them.
#[derive(Drop)]
pub struct PassRoom<E, P> {
    alloc: Global,
    pub elements: Spares<E>,
    pub draws: Spares<u32>,
    parts: Vec<P>,
    /// Memory of the blocks of frames.
    bytes: Vec<Vec<u8>>,
    /// Memory of the lists of blocks of frames.
    frames: Vec<Vec<DrawnBlock>>,
}

impl<E: Drop, P: Drop> PassRoom<E, P> {
    /// No spare memory. It allocates nothing.
    pub fn new(alloc: Global) -> PassRoom<E, P> {
        PassRoom {
            alloc,
            elements: Spares::new(alloc),
            draws: Spares::new(alloc),
            parts: Vec::new(alloc),
            bytes: Vec::new(alloc),
            frames: Vec::new(alloc),
        }
    }

    /// The allocator for more memory.
    pub fn alloc(&self) -> Global {
        self.alloc
    }

    /// A spare part, if there is one.
    pub fn part(&mut self) -> Option<P> {
        self.parts.pop()
    }

    /// Keeps a part for its memory. If there is no memory to keep it here, it is dropped.
    pub fn keep_part(&mut self, part: P) {
        let _ = self.parts.push(part).is_ok();
    }

    /// An empty list of bytes, in spare memory if there is some.
    pub fn bytes(&mut self) -> Vec<u8>
        ensures { result.items ≡ [] }
    {
        match self.bytes.pop() {
            Some(mut bytes) => {
                bytes.clear();
                bytes
            }
            None => Vec::new(self.alloc),
        }
    }

    /// Keeps bytes in the same way as a part.
    pub fn keep_bytes(&mut self, bytes: Vec<u8>) {
        let _ = self.bytes.push(bytes).is_ok();
    }

    /// A frame without elements, in spare memory if there is some.
    pub fn frame(&mut self) -> DrawnElements
        ensures { result ≡ [] }
    {
        match self.frames.pop() {
            Some(blocks) => DrawnElements::reuse_memory(self.alloc, blocks),
            None => DrawnElements::new(self.alloc),
        }
    }

    /// Keeps the memory of a frame and of its blocks in the same way.
    pub fn keep_frame(&mut self, shown: DrawnElements) {
        let mut blocks = shown.into_blocks();
        'each: while let Some(block) = blocks.pop() {
            self.keep_bytes(block.into_bytes());
        }
        if blocks.capacity() > 0 {
            let _ = self.frames.push(blocks).is_ok();
        }
    }

    /// Keeps the memory of a pass's result in the same way.
    pub fn keep_pass(&mut self, done: PassDone<E, P>) {
        let PassDone {
            elements,
            draws,
            part,
            shown,
        } = done;
        self.elements.keep(elements);
        self.draws.keep(draws);
        self.keep_part(part);
        self.keep_frame(shown);
    }

    /// Moves `count` spares of each kind that a block needs to `other`, or all if there are fewer.
    pub fn give(&mut self, other: &mut PassRoom<E, P>, count: usize) {
        self.elements.give(&mut other.elements, count);
        self.draws.give(&mut other.draws, count);
        give_each(&mut self.parts, &mut other.parts, count);
        give_each(&mut self.bytes, &mut other.bytes, count);
    }
}

/// Moves `count` items from one list to another, or all if there are fewer.
fn give_each<T: Drop>(from: &mut Vec<T>, to: &mut Vec<T>, count: usize) {
    for _ in 0..count {
        match from.pop() {
            Some(item) => {
                let _ = to.push(item).is_ok();
            }
            None => return,
        }
    }
}
