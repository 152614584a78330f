//! Texts, numbers and bytes, appended to a text.
ghost use Rattle.std.specs.Prelude.{◌≡◌, ◌≤◌, ◌++◌, length, OnOk, decimal};
ghost use Rattle.std.specs.Fmt.{signed_decimal};
ghost use Rattle.hex.specs.Hex.{encode_lower};
ghost use Rattle.record_text.specs.Words.{hex_text, number_line};

use crate::hex_digits::encode_hex;
use itoa::Buffer;
use std::alloc::AllocError;

/// Appends a text as it is.
pub fn put_str(out: &mut Vec<u8>, words: &str) -> Result<(), AllocError>
    ensures { OnOk result (out.new.items ≡ out.old.items ++ words.now) }
{
    out.extend_from_slice(words.as_bytes())
}

/// Appends a number in decimal.
pub fn put_number(out: &mut Vec<u8>, number: u64) -> Result<(), AllocError>
    ensures { OnOk result (out.new.items ≡ out.old.items ++ decimal number) }
{
    let mut buffer = Buffer::new();
    out.extend_from_slice(buffer.format(number).as_bytes())
}

/// Appends a number in decimal, after a minus sign if it is negative.
pub fn put_signed(out: &mut Vec<u8>, number: i64) -> Result<(), AllocError>
    ensures { OnOk result (out.new.items ≡ out.old.items ++ signed_decimal number) }
{
    let mut buffer = Buffer::new();
    out.extend_from_slice(buffer.format(number).as_bytes())
}

/// Appends a line of a keyword and a number. On an error a part of it may be there.
pub fn put_number_line(out: &mut Vec<u8>, word: &str, number: u64) -> Result<(), AllocError>
    ensures { OnOk result (out.new.items ≡ out.old.items ++ number_line word.now number) }
{
    put_str(out, word)?;
    put_str(out, " ")?;
    put_number(out, number)?;
    put_str(out, "\n")?;
    Ok(())
}

fn put_piece(out: &mut Vec<u8>, piece: &[u8]) -> Result<(), AllocError>
    requires { length piece.now ≤ 64 }
    ensures { OnOk result (out.new.items ≡ out.old.items ++ encode_lower piece.now) }
{
    let mut digits = [0; 128];
    let part = &mut digits[..2 * piece.len()];
    encode_hex(piece, part);
    out.extend_from_slice(part)
}

/// Appends bytes as hex digits in lower case. After `AllocError` a part of them may be there.
pub fn put_hex_digits(out: &mut Vec<u8>, bytes: &[u8]) -> Result<(), AllocError>
    ensures { OnOk result (out.new.items ≡ out.old.items ++ encode_lower bytes.now) }
{
    for piece in bytes.chunks(64) {
        put_piece(out, piece)?;
    }
    Ok(())
}

/// Appends bytes as hex digits in lower case, or a dash if there are none.
pub fn put_hex(out: &mut Vec<u8>, bytes: &[u8]) -> Result<(), AllocError>
    ensures { OnOk result (out.new.items ≡ out.old.items ++ hex_text bytes.now) }
{
    match bytes {
        [] => put_str(out, "-"),
        _ => put_hex_digits(out, bytes),
    }
}
