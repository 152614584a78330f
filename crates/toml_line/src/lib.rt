//! The line at which a text stops being TOML.
#![tactic(auto)]

ghost use Rattle.std.specs.Prelude.{◌≡◌, ◌≤◌, ◌+◌, length, None, IfSome, IsUtf8};
ghost use Rattle.toml.specs.Parse.{parse_document};

use std::alloc::Global;

/// The first byte with which the bytes stop being TOML. None if they are TOML, or memory runs out.
fn toml_fault_place(alloc: Global, bytes: &[u8]) -> Option<usize>
    ensures within { IfSome result (λ place. place ≤ length bytes.now) }
    ensures not_toml { IfSome result (λ place. IsUtf8 bytes.now
        → parse_document bytes.now ≡ None) }
{
    match std::str::from_utf8(bytes) {
        Err(error) => Some(error.valid_up_to()),
        Ok(text) => match toml::table_from_str(alloc, text) {
            Ok(_) => None,
            Err(error) => Some(error.span()?.start),
        },
    }
}

/// The line, counted from 1, at which bytes stop being TOML. None if they are TOML, or memory runs
/// out. Which line it is, no contract says: TOML's reader has the place of its error.
pub fn toml_fault_line(alloc: Global, bytes: &[u8]) -> Option<usize>
    ensures first { IfSome result (λ line. 1 ≤ line) }
    ensures last { IfSome result (λ line. line ≤ 1 + length bytes.now) }
    ensures not_toml { IfSome result (λ line. IsUtf8 bytes.now
        → parse_document bytes.now ≡ None) }
{
    let place = toml_fault_place(alloc, bytes)?;
    let mut line: usize = 1;
    for byte in &bytes[..place] {
        if *byte == b'\n' {
            line = line.saturating_add(1);
        }
    }
    Some(line)
}
