//! Lists with their greatest length in their type. The caller proves that there is room, so only
//! "out of memory" fails.
ghost use Rattle.std.specs.Prelude.{◌≡◌, ℕ, ◌+◌, ◌<◌, ◌≤◌, List, [], ◌∷◌, ◌++◌, length, vec_len};
ghost use Rattle.std.specs.Prelude.{slice_index_or, OnOk, OnErr, IsTrue, ◌↔◌};
ghost use Rattle.std.specs.Cmp.Lexicographic.{pointwise, lists_per};

use std::alloc::{AllocError, Global};
use std::marker::Model;

/// A list of at most `MOST` items. Contracts see the plain list.
#[derive(Debug, Drop)]
pub struct Limited<T, const MOST: usize> {
    pub(crate) items: Vec<T>,
}

impl<T, const MOST: usize> Model for Limited<T, MOST> {
    ghost Value = { List T };

    ghost view = { λ l. l.items.items };

    ghost invariant = { λ l. length l.items.items ≤ MOST };
}

impl<T, const MOST: usize> Limited<T, MOST> {
    /// An empty list. It allocates nothing.
    pub fn new(alloc: Global) -> Limited<T, MOST>
        ensures { result ≡ [] }
    {
        Limited {
            items: Vec::new(alloc),
        }
    }

    /// A list from a `Vec`. The items are moved, not copied.
    pub fn from_vec(items: Vec<T>) -> Limited<T, MOST>
        requires { vec_len items ≤ MOST }
        ensures { result ≡ items.items }
    {
        Limited { items }
    }

    /// The items as a plain `Vec`.
    pub fn into_vec(self) -> Vec<T>
    where
        T: Drop,
        ensures { result.items ≡ self }
    {
        let Limited { items } = self;
        items
    }

    /// Adds an item at the end. A call that fails drops the item and changes nothing.
    pub fn push(&mut self, item: T) -> Result<(), AllocError>
    where
        T: Drop,
        requires { length self.old < MOST }
        ensures ok { OnOk result (self.new ≡ self.old ++ item ∷ []) }
        ensures err { OnErr result (self.new ≡ self.old) }
    {
        self.items.push(item)?;
        Ok(())
    }

    /// Moves another list's items to the end. A call that fails drops them and changes nothing.
    pub fn append(&mut self, mut more: Limited<T, MOST>) -> Result<(), AllocError>
    where
        T: Drop,
        requires { length self.old + length more ≤ MOST }
        ensures ok { OnOk result (self.new ≡ self.old ++ more) }
        ensures err { OnErr result (self.new ≡ self.old) }
    {
        self.items.append(&mut more.items)
    }

    /// Adds copies of the items at the end. A call that fails changes nothing.
    pub fn extend_from_slice(&mut self, items: &[T]) -> Result<(), AllocError>
    where
        T: Copy,
        requires { length self.old + length items.now ≤ MOST }
        ensures ok { OnOk result (self.new ≡ self.old ++ items.now) }
        ensures err { OnErr result (self.new ≡ self.old) }
    {
        self.items.extend_from_slice(items)
    }

    /// Removes all items, and keeps the memory that they took.
    pub fn clear(&mut self)
    where
        T: Drop,
        ensures { self.new ≡ [] }
    {
        self.items.clear();
    }

    /// The number of items.
    pub fn len(&self) -> usize
        ensures len { result ≡ length self.now }
        ensures most { result ≤ MOST }
    {
        self.items.len()
    }

    /// Whether there is no item.
    pub fn is_empty(&self) -> bool
        ensures { IsTrue result ↔ (length self.now ≡ 0) }
    {
        self.items.len() == 0
    }

    /// Whether the list has `MOST` items.
    pub fn is_full(&self) -> bool
        ensures { IsTrue result ↔ (MOST ≤ length self.now) }
    {
        self.items.len() >= MOST
    }

    /// The item at an index, counted from 0.
    pub fn item(&self, index: usize) -> &T
        requires { index < length self.now }
        ensures { result.now ≡ slice_index_or self.now index result.now }
    {
        &self.items[index]
    }

    /// The items as a slice.
    pub fn as_slice(&self) -> &[T]
        ensures items { result.now ≡ self.now }
        ensures most { length result.now ≤ MOST }
    {
        self.items.as_slice()
    }
}

impl<T: Copy + Drop, const MOST: usize> Limited<T, MOST> {
    ghost use Rattle.std.specs.Prelude.{◌≡◌, IfOk};

    /// A copy of the list.
    pub fn try_clone(&self, alloc: Global) -> Result<Limited<T, MOST>, AllocError>
        ensures { IfOk result (λ copy. copy ≡ self.now) }
    {
        let mut copy = Limited::new(alloc);
        copy.extend_from_slice(self.as_slice())?;
        Ok(copy)
    }
}

impl<T: PartialEq, const MOST: usize> PartialEq for Limited<T, MOST> {
    ghost eq = { λ a b. pointwise T.eq a b };

    ghost laws = { lists_per T.laws };

    fn eq(&self, other: &Self) -> bool {
        let left = self.as_slice();
        let right = other.as_slice();
        left == right
    }
}
