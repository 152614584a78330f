//! Names of hardware platforms.
ghost use Rattle.std.specs.Prelude.{◌≡◌, ◌≤◌, length, IfSome, IfNone, true, false};
ghost use Rattle.std.specs.List.{list_all};
ghost use Rattle.manifest.specs.Limits.{is_printable, is_platform_name};

use det_values::Bytes64;
use std::marker::Model;

/// The name of a platform: 1 to 64 bytes of printable ASCII, including the blank.
#[derive(Drop)]
pub struct PlatformName {
    bytes: Bytes64,
}

impl Model for PlatformName {
    ghost use Rattle.std.specs.Prelude.{List, ℕ, ◌≡◌, true};
    ghost use Rattle.manifest.specs.Limits.{is_platform_name};

    ghost Value = { List ℕ };

    ghost view = { λ n. n.bytes };

    ghost invariant = { λ n. is_platform_name n.bytes ≡ true };
}

fn can_be_printed(byte: &u8) -> bool
    ensures { result ≡ is_printable byte.now }
{
    matches!(*byte, b' '..=b'~')
}

fn all_can_be_printed(bytes: &[u8]) -> bool
    ensures { result ≡ list_all is_printable bytes.now }
{
    bytes.iter().all(can_be_printed)
}

fn is_name(bytes: &[u8]) -> bool
    ensures value { result ≡ is_platform_name bytes.now }
    ensures few { result ≡ true → length bytes.now ≤ 64 }
{
    !bytes.is_empty() && bytes.len() <= 64 && all_can_be_printed(bytes)
}

impl PlatformName {
    /// These bytes as a name. None if they aren't one.
    pub fn from_bytes(bytes: &[u8]) -> Option<PlatformName>
        ensures some { IfSome result (λ name. (is_platform_name bytes.now ≡ true)
            × (name ≡ bytes.now)) }
        ensures none { IfNone result (is_platform_name bytes.now ≡ false) }
    {
        if !is_name(bytes) {
            return None;
        }
        Some(PlatformName {
            bytes: Bytes64::from_slice(bytes),
        })
    }

    /// The bytes as a slice.
    pub fn as_slice(&self) -> &[u8]
        ensures bytes { result.now ≡ self.now }
        ensures name { is_platform_name self.now ≡ true }
    {
        self.bytes.as_slice()
    }
}
