//! At most 64 bytes, held in place: the bytes of one element without an allocation.
ghost use Rattle.std.specs.Prelude.{◌≡◌, ◌<◌, ◌≤◌, length, take, slice_index_or};
ghost use Rattle.std.specs.Cmp.Lexicographic.{pointwise};

use std::alloc::AllocError;
use std::marker::Model;

/// The bytes of one element, at most 64. The array is part of the value, so a copy can't fail.
#[derive(Debug, Drop)]
pub struct Bytes64 {
    bytes: [u8; 64],
    len: usize,
}

impl Model for Bytes64 {
    ghost use Rattle.std.specs.Prelude.{List, ℕ, take, ◌≤◌};

    ghost Value = { List ℕ };

    ghost view = { λ b. take b.len b.bytes };

    ghost invariant = { λ b. b.len ≤ 64 };
}

impl Bytes64 {
    /// A value with a copy of these bytes.
    pub fn from_slice(bytes: &[u8]) -> Bytes64
        requires { length bytes.now ≤ 64 }
        ensures { result ≡ bytes.now }
    {
        let mut all = [0; 64];
        all[..bytes.len()].copy_from_slice(bytes);
        Bytes64 {
            bytes: all,
            len: bytes.len(),
        }
    }

    /// The number of bytes.
    pub fn len(&self) -> usize
        ensures len { result ≡ length self.now }
        ensures most { result ≤ 64 }
    {
        self.len
    }

    /// The byte at an index, counted from 0.
    pub fn item(&self, index: usize) -> &u8
        requires { index < length self.now }
        ensures { result.now ≡ slice_index_or self.now index result.now }
    {
        &self.as_slice()[index]
    }

    /// The bytes as a slice.
    pub fn as_slice(&self) -> &[u8]
        ensures bytes { result.now ≡ self.now }
        ensures most { length result.now ≤ 64 }
    {
        &self.bytes[..self.len]
    }
}

impl PartialEq for Bytes64 {
    ghost use Rattle.std.specs.Prelude.{nat_eq};
    ghost use Rattle.std.specs.Cmp.Rules.{comparing};

    ghost eq = { pointwise nat_eq };

    ghost laws = { Prim.search comparing };

    fn eq(&self, other: &Bytes64) -> bool {
        let left = self.as_slice();
        let right = other.as_slice();
        left == right
    }
}

impl Clone for Bytes64 {
    ghost use Rattle.std.specs.Prelude.{◌≡◌};

    ghost is_clone = { λ a b. b ≡ a };

    ghost is_infallible = { λ _. Unit {0} };

    fn clone(&self) -> Result<Bytes64, AllocError> {
        Ok(Bytes64 {
            bytes: self.bytes,
            len: self.len,
        })
    }
}
