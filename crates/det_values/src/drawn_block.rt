//! A block of the elements of a finished cycle, already in the bytes of a record.
ghost use Rattle.std.specs.Prelude.{◌≡◌, ◌≤◌, ◌<◌, ◌+◌, List, ◌++◌, ◌∷◌, [], length, OnOk, OnErr};
ghost use Rattle.std.specs.Prelude.{IsTrue, ◌↔◌};
ghost use Rattle.std.specs.List.{All};
ghost use Rattle.det_values.specs.Spelling.{an_element, spelled_all, IsDrawn};
ghost use Rattle.det_values.specs.Spelling.{IsExtended, SpellElements};
ghost use Rattle.det_values.specs.declared.frames.DrawnElement.{DrawnElement};

use crate::block_walk::BlockWalk;
use crate::clear_draws::clear_all_draws;
use crate::put::put_drawn;
use std::alloc::{AllocError, Global};
use std::marker::Model;

/// The bytes and draws of consecutive elements of a finished cycle: at most 65,536 elements of at
/// most 64 bytes each.
///
/// The block holds the bytes that format Two writes, so encoding a frame copies each block once.
#[derive(Debug, Drop)]
pub struct DrawnBlock {
    bytes: Vec<u8>,
    count: u32,
}

impl Model for DrawnBlock {
    ghost use Rattle.std.specs.Prelude.{List};
    ghost use Rattle.det_values.specs.declared.frames.DrawnElement.{DrawnElement};
    ghost use Rattle.det_values.specs.Spelling.{elements_in, IsFlat};

    ghost Value = { List DrawnElement };

    ghost view = { λ f. elements_in f.count f.bytes.items };

    ghost invariant = { λ f. IsFlat f.count f.bytes.items };
}

impl DrawnBlock {
    ghost use Rattle.det_values.specs.Frames.{all_without_draws};

    /// An empty block. It allocates nothing.
    pub fn new(alloc: Global) -> DrawnBlock
        ensures { result ≡ [] }
    {
        DrawnBlock {
            bytes: Vec::new(alloc),
            count: 0,
        }
    }

    /// An empty block that reuses the memory of `bytes`.
    pub fn reuse_memory(mut bytes: Vec<u8>) -> DrawnBlock
        ensures { result ≡ [] }
    {
        bytes.clear();
        DrawnBlock { bytes, count: 0 }
    }

    /// The number of elements.
    pub fn len(&self) -> usize
        ensures len { result ≡ length self.now }
        ensures most { result ≤ 65536 }
    {
        self.count as usize
    }

    /// Whether there is no element.
    pub fn is_empty(&self) -> bool
        ensures { IsTrue result ↔ (length self.now ≡ 0) }
    {
        self.len() == 0
    }

    /// The elements as bytes of a format Two record.
    pub fn spelled(&self) -> &[u8]
        ensures bytes { result.now ≡ spelled_all self.now }
        ensures fields { All IsDrawn self.now }
    {
        self.bytes.as_slice()
    }

    /// Adds an element at the end. A call that fails changes nothing.
    pub fn push(&mut self, bytes: &[u8], draws: u32) -> Result<(), AllocError>
        requires room { length self.old < 65536 }
        requires short { length bytes.now ≤ 64 }
        ensures ok { OnOk result (self.new ≡ self.old ++ an_element bytes.now draws ∷ []) }
        ensures err { OnErr result (self.new ≡ self.old) }
    {
        put_drawn(&mut self.bytes, bytes, draws)?;
        self.count += 1;
        Ok(())
    }

    /// Removes all elements, and keeps the memory that they took.
    pub fn clear(&mut self)
        ensures { self.new ≡ [] }
    {
        self.bytes.clear();
        self.count = 0;
    }

    /// Adds `count` elements, given as bytes of a record, by one copy. A call that fails changes
    /// nothing.
    pub fn extend_spelled(&mut self, spelled: &[u8], count: u32) -> Result<(), AllocError>
        requires room { length self.old + count ≤ 65536 }
        requires spelled { SpellElements spelled.now count }
        ensures ok { OnOk result (IsExtended spelled.now count self.old self.new) }
        ensures err { OnErr result (self.new ≡ self.old) }
    {
        self.bytes.extend_from_slice(spelled)?;
        self.count += count;
        Ok(())
    }

    /// A block of `count` elements, given as bytes of a record. The bytes are moved, not copied.
    pub fn from_spelled(bytes: Vec<u8>, count: u32) -> DrawnBlock
        requires few { count ≤ 65536 }
        requires spelled { SpellElements bytes.items count }
        ensures { (es : List DrawnElement) → bytes.items ≡ spelled_all es → length es ≡ count
            → All IsDrawn es → result ≡ es }
    {
        DrawnBlock { bytes, count }
    }

    /// The bytes, for reuse of their memory.
    pub fn into_bytes(self) -> Vec<u8> {
        let DrawnBlock { bytes, .. } = self;
        bytes
    }

    /// Sets all draws to 0.
    pub fn clear_draws(&mut self)
        ensures { self.new ≡ all_without_draws self.old }
    {
        clear_all_draws(self.bytes.as_mut_slice(), self.count);
    }

    /// A walk over the elements in order.
    pub fn walk(&self) -> BlockWalk<'_>
        ensures { result ≡ self.now }
    {
        BlockWalk {
            rest: self.bytes.as_slice(),
            left: self.count,
        }
    }
}

impl PartialEq for DrawnBlock {
    ghost use Rattle.std.specs.Cmp.Lexicographic.{pointwise};
    ghost use Rattle.det_values.specs.Equal.{drawn_eq, flat_laws};

    ghost eq = { λ a b. pointwise drawn_eq a b };

    ghost laws = { flat_laws };

    fn eq(&self, other: &DrawnBlock) -> bool {
        let left = self.bytes.as_slice();
        let right = other.bytes.as_slice();
        left == right
    }
}
