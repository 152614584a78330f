//! The numbers in an element of a built-in job.
ghost use Rattle.std.specs.Prelude.{◌≡◌, ◌≤◌, ◌+◌, ◌++◌, OnOk, Some, drop, length, take};
ghost use Rattle.std.specs.Int.{w16, w32, w64, from_be_bytes, cast_signed};
ghost use Rattle.record_json.specs.declared.element_layout.ElementLayout.TheVariants.{Particle};
ghost use Rattle.record_json.specs.declared.element_layout.ElementLayout.TheVariants.{Guarded};
ghost use Rattle.record_json.specs.Elements.{u16_text, u32_text, i64_text, numbers_text};
ghost use Rattle.record_json.specs.Elements.{length_of, fields_text};

use crate::element_layout::ElementLayout;
use crate::put_json::put_exact_signed;
use record_text::{put_number, put_str};
use std::alloc::AllocError;

fn u16_at(bytes: &[u8], at: usize) -> u16
    requires { at + 2 ≤ length bytes.now }
    ensures { result ≡ from_be_bytes w16 (take 2 (drop at bytes.now)) }
{
    u16::from_be_bytes([bytes[at], bytes[at + 1]])
}

fn u32_at(bytes: &[u8], at: usize) -> u32
    requires { at + 4 ≤ length bytes.now }
    ensures { result ≡ from_be_bytes w32 (take 4 (drop at bytes.now)) }
{
    u32::from_be_bytes([bytes[at], bytes[at + 1], bytes[at + 2], bytes[at + 3]])
}

fn i64_at(bytes: &[u8], at: usize) -> i64
    requires { at + 8 ≤ length bytes.now }
    ensures { result ≡ cast_signed w64 (from_be_bytes w64 (take 8 (drop at bytes.now))) }
{
    i64::from_be_bytes([
        bytes[at],
        bytes[at + 1],
        bytes[at + 2],
        bytes[at + 3],
        bytes[at + 4],
        bytes[at + 5],
        bytes[at + 6],
        bytes[at + 7],
    ])
}

fn put_u16(out: &mut Vec<u8>, at: usize, bytes: &[u8]) -> Result<(), AllocError>
    requires { at + 2 ≤ length bytes.now }
    ensures { OnOk result (out.new.items ≡ out.old.items ++ u16_text at bytes.now) }
{
    put_number(out, u16_at(bytes, at) as u64)
}

fn put_u32(out: &mut Vec<u8>, at: usize, bytes: &[u8]) -> Result<(), AllocError>
    requires { at + 4 ≤ length bytes.now }
    ensures { OnOk result (out.new.items ≡ out.old.items ++ u32_text at bytes.now) }
{
    put_number(out, u32_at(bytes, at) as u64)
}

fn put_i64(out: &mut Vec<u8>, at: usize, bytes: &[u8]) -> Result<(), AllocError>
    requires { at + 8 ≤ length bytes.now }
    ensures { OnOk result (out.new.items ≡ out.old.items ++ i64_text at bytes.now) }
{
    put_exact_signed(out, i64_at(bytes, at))
}

fn put_particle(out: &mut Vec<u8>, bytes: &[u8]) -> Result<(), AllocError>
    requires { length bytes.now ≡ 20 }
    ensures { OnOk result (out.new.items ≡ out.old.items ++ numbers_text Particle bytes.now) }
{
    put_str(out, "\"number\":")?;
    put_u32(out, 0, bytes)?;
    put_str(out, ",\"x\":")?;
    put_i64(out, 4, bytes)?;
    put_str(out, ",\"y\":")?;
    put_i64(out, 12, bytes)?;
    Ok(())
}

fn put_guarded(out: &mut Vec<u8>, bytes: &[u8]) -> Result<(), AllocError>
    requires { length bytes.now ≡ 14 }
    ensures { OnOk result (out.new.items ≡ out.old.items ++ numbers_text Guarded bytes.now) }
{
    put_str(out, "\"number\":")?;
    put_u32(out, 0, bytes)?;
    put_str(out, ",\"value\":")?;
    put_i64(out, 4, bytes)?;
    put_str(out, ",\"streak\":")?;
    put_u16(out, 12, bytes)?;
    Ok(())
}

/// Appends the members with the numbers of an element.
fn put_numbers(out: &mut Vec<u8>, layout: ElementLayout, bytes: &[u8]) -> Result<(), AllocError>
    requires { length_of layout ≡ Some (length bytes.now) }
    ensures { OnOk result (out.new.items ≡ out.old.items ++ numbers_text layout bytes.now) }
{
    match layout {
        ElementLayout::Unknown => Ok(()),
        ElementLayout::Level => {
            put_str(out, "\"level\":")?;
            put_i64(out, 0, bytes)
        }
        ElementLayout::Channel => {
            put_str(out, "\"event\":")?;
            put_u16(out, 0, bytes)?;
            put_str(out, ",\"level\":")?;
            put_i64(out, 2, bytes)
        }
        ElementLayout::Particle => put_particle(out, bytes),
        ElementLayout::Guarded => put_guarded(out, bytes),
    }
}

/// Appends the member `fields` with the numbers of an element, or nothing if it has none.
pub(crate) fn put_fields(
    out: &mut Vec<u8>,
    layout: ElementLayout,
    bytes: &[u8],
) -> Result<(), AllocError>
    ensures { OnOk result (out.new.items ≡ out.old.items ++ fields_text layout bytes.now) }
{
    let Some(length) = layout.length() else {
        return Ok(());
    };
    if bytes.len() != length {
        return Ok(());
    }
    put_str(out, ",\"fields\":{")?;
    put_numbers(out, layout, bytes)?;
    put_str(out, "}")?;
    Ok(())
}
