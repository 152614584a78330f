//! The export that checks elements which C spelled itself, one after another.
ghost use Rattle.std.specs.Prelude.{◌↔◌, IsTrue};
ghost use Rattle.record_grammar.specs.Grammar.{drawn_at};
ghost use Rattle.c_types.specs.Elements.{AreElements};
ghost use Rattle.c_types.specs.Places.{format_of};
ghost use Rattle.det_reading_c.specs.Parts.{IsAfterFirst};

use crate::frame_parts::{any_u32, element_bytes};
use c_types::format_from_number;
use det_values::Format;

/// The bytes after the first element of a finished cycle. None if none is there.
fn after_element(format: Format, bytes: &[u8]) -> Option<&[u8]>
    ensures { IsAfterFirst (λ rest. rest.now) result (drawn_at format bytes.now) }
{
    match element_bytes(bytes) {
        Err(_) => None,
        Ok((_, rest)) => match format {
            Format::One => Some(rest),
            Format::Two => match any_u32(rest) {
                Some((_, after)) => Some(after),
                None => None,
            },
        },
    }
}

/// Whether the bytes spell exactly `count` elements.
fn are_elements(format: Format, count: u32, bytes: &[u8]) -> bool
    ensures { IsTrue result ↔ AreElements format count bytes.now }
{
    let mut rest = bytes;
    'elements: for index in 0..count {
        match after_element(format, rest) {
            Some(after) => rest = after,
            None => return false,
        }
    }
    rest.is_empty()
}

/// Whether the bytes spell exactly `count` elements of a finished cycle, in format 1 or, by any
/// other number, in format 2.
#[unsafe(no_mangle)]
pub extern "C" fn det_are_elements(format: u8, count: u32, bytes: &[u8]) -> bool
    ensures { IsTrue result ↔ AreElements (format_of format) count bytes.now }
{
    are_elements(format_from_number(format), count, bytes)
}
