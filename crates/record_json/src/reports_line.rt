//! The line of the reports.
ghost use Rattle.std.specs.Prelude.{◌≡◌, ◌≤◌, ◌+◌, ◌<◌, ◌++◌, OnOk, drop, length};
ghost use Rattle.record_json.specs.Reports.{is_plain, character_text, line_end, report_byte};
ghost use Rattle.record_json.specs.Reports.{inner_text, strings_text, reports_line};

use record_text::{put_hex_digits, put_str};
use std::alloc::AllocError;

/// Whether a character needs no escape.
fn is_plain(byte: u8) -> bool
    ensures { result ≡ is_plain byte }
{
    32 <= byte && byte <= 126 && !(byte == b'"' || byte == b'\\')
}

fn put_character(out: &mut Vec<u8>, byte: u8) -> Result<(), AllocError>
    ensures { OnOk result (out.new.items ≡ out.old.items ++ character_text byte) }
{
    if is_plain(byte) {
        return out.extend_from_slice(&[byte]);
    }
    put_str(out, "\\u00")?;
    put_hex_digits(out, &[byte])
}

/// Appends what stands where a line ends, with these bytes behind it.
fn put_line_end(out: &mut Vec<u8>, rest: &[u8]) -> Result<(), AllocError>
    ensures { OnOk result (out.new.items ≡ out.old.items ++ line_end rest.now) }
{
    match rest {
        [] => Ok(()),
        _ => put_str(out, "\",\""),
    }
}

fn put_byte(out: &mut Vec<u8>, byte: u8, rest: &[u8]) -> Result<(), AllocError>
    ensures { OnOk result (out.new.items ≡ out.old.items ++ report_byte byte rest.now) }
{
    if byte == b'\n' {
        put_line_end(out, rest)
    } else {
        put_character(out, byte)
    }
}

fn put_inner(out: &mut Vec<u8>, reports: &[u8]) -> Result<(), AllocError>
    ensures { OnOk result (out.new.items ≡ out.old.items ++ inner_text reports.now) }
{
    for i in 0..reports.len() {
        put_byte(out, reports[i], reports.split_at(i + 1).1)?;
    }
    Ok(())
}

fn put_strings(out: &mut Vec<u8>, reports: &[u8]) -> Result<(), AllocError>
    ensures { OnOk result (out.new.items ≡ out.old.items ++ strings_text reports.now) }
{
    match reports {
        [] => Ok(()),
        _ => {
            put_str(out, "\"")?;
            put_inner(out, reports)?;
            put_str(out, "\"")
        }
    }
}

/// Appends the line of reports: a value with a string for each line of theirs. After `AllocError` a
/// part of the line may be there.
pub fn put_json_reports(out: &mut Vec<u8>, reports: &[u8]) -> Result<(), AllocError>
    ensures { OnOk result (out.new.items ≡ out.old.items ++ reports_line reports.now) }
{
    put_str(out, "{\"reports\":[")?;
    put_strings(out, reports)?;
    put_str(out, "]}\n")?;
    Ok(())
}
