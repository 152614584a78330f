//! Numbers and strings of JSON, appended to a text.
ghost use Rattle.std.specs.Prelude.{◌≡◌, ◌++◌, OnOk};
ghost use Rattle.record_json.specs.Texts.{bytes_text, number_text, signed_text};

use record_text::{put_hex_digits, put_number, put_signed, put_str};
use std::alloc::AllocError;

/// The greatest number that is exact, with all numbers below it, in a reader that holds numbers as
/// doubles: 2^53.
const MOST_EXACT: u64 = 9_007_199_254_740_992;

/// Appends bytes as a string of hex digits.
pub(crate) fn put_bytes(out: &mut Vec<u8>, bytes: &[u8]) -> Result<(), AllocError>
    ensures { OnOk result (out.new.items ≡ out.old.items ++ bytes_text bytes.now) }
{
    put_str(out, "\"")?;
    put_hex_digits(out, bytes)?;
    put_str(out, "\"")
}

/// Appends a number, or a string of its digits if it is beyond 2^53.
pub(crate) fn put_exact(out: &mut Vec<u8>, number: u64) -> Result<(), AllocError>
    ensures { OnOk result (out.new.items ≡ out.old.items ++ number_text number) }
{
    if number <= MOST_EXACT {
        return put_number(out, number);
    }
    put_str(out, "\"")?;
    put_number(out, number)?;
    put_str(out, "\"")
}

/// Appends a number, or a string of its sign and digits if it is beyond 2^53 or -2^53.
pub(crate) fn put_exact_signed(out: &mut Vec<u8>, number: i64) -> Result<(), AllocError>
    ensures { OnOk result (out.new.items ≡ out.old.items ++ signed_text number) }
{
    if number.unsigned_abs() <= MOST_EXACT {
        return put_signed(out, number);
    }
    put_str(out, "\"")?;
    put_signed(out, number)?;
    put_str(out, "\"")
}
