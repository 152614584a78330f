//! Names of events, checked when they are made.
ghost use Rattle.std.specs.Prelude.{◌≡◌, ◌<◌, ◌≤◌, length, IfSome, IfNone, true, false};
ghost use Rattle.std.specs.Prelude.{slice_index_or};
ghost use Rattle.std.specs.List.{list_all};
ghost use Rattle.det_values.specs.Limits.{is_event_name, allowed_in_name};

use crate::Bytes64;
use std::alloc::AllocError;
use std::marker::Model;

/// The name of an event: 1 to 32 of `a` to `z`, `0` to `9` and `_`.
#[derive(Debug, Drop)]
pub struct EventName {
    bytes: Bytes64,
}

impl Model for EventName {
    ghost use Rattle.std.specs.Prelude.{List, ℕ, ◌≡◌, true};
    ghost use Rattle.det_values.specs.Limits.{is_event_name};

    ghost Value = { List ℕ };

    ghost view = { λ n. n.bytes };

    ghost invariant = { λ n. is_event_name n.bytes ≡ true };
}

fn is_event_name_byte(byte: &u8) -> bool
    ensures { result ≡ allowed_in_name byte.now }
{
    matches!(*byte, b'a'..=b'z' | b'0'..=b'9' | b'_')
}

fn are_event_name_bytes(bytes: &[u8]) -> bool
    ensures { result ≡ list_all allowed_in_name bytes.now }
{
    bytes.iter().all(is_event_name_byte)
}

fn is_name(bytes: &[u8]) -> bool
    ensures value { result ≡ is_event_name bytes.now }
    ensures few { result ≡ true → length bytes.now ≤ 64 }
{
    !bytes.is_empty() && bytes.len() <= 32 && are_event_name_bytes(bytes)
}

impl EventName {
    /// The name with these bytes, or None if they are not a name.
    pub fn from_bytes(bytes: &[u8]) -> Option<EventName>
        ensures some { IfSome result (λ name. (is_event_name bytes.now ≡ true)
            × (name ≡ bytes.now)) }
        ensures none { IfNone result (is_event_name bytes.now ≡ false) }
    {
        if !is_name(bytes) {
            return None;
        }
        Some(EventName {
            bytes: Bytes64::from_slice(bytes),
        })
    }

    /// The number of bytes, 1 to 32.
    pub fn len(&self) -> usize
        ensures len { result ≡ length self.now }
        ensures name { is_event_name self.now ≡ true }
    {
        self.bytes.len()
    }

    /// The byte at an index, counted from 0.
    pub fn item(&self, index: usize) -> &u8
        requires { index < length self.now }
        ensures { result.now ≡ slice_index_or self.now index result.now }
    {
        self.bytes.item(index)
    }

    /// The bytes as a slice.
    pub fn as_slice(&self) -> &[u8]
        ensures bytes { result.now ≡ self.now }
        ensures name { is_event_name self.now ≡ true }
    {
        self.bytes.as_slice()
    }
}

impl PartialEq for EventName {
    ghost use Rattle.std.specs.Prelude.{nat_eq};
    ghost use Rattle.std.specs.Cmp.Lexicographic.{pointwise};
    ghost use Rattle.std.specs.Cmp.Rules.{comparing};

    ghost eq = { pointwise nat_eq };

    ghost laws = { Prim.search comparing };

    fn eq(&self, other: &EventName) -> bool {
        let left = self.as_slice();
        let right = other.as_slice();
        left == right
    }
}

impl Clone for EventName {
    ghost use Rattle.std.specs.Prelude.{◌≡◌};

    ghost is_clone = { λ a b. b ≡ a };

    ghost is_infallible = { λ _. Unit {0} };

    fn clone(&self) -> Result<EventName, AllocError> {
        let bytes = self.bytes.clone()?;
        Ok(EventName { bytes })
    }
}
