//! Makes files from their names.
//!
//! `A` is a listed file, `A:97` its first 97 bytes, `A@7=09` the file with byte 7 replaced, and
//! `A+05*3` the file with three bytes appended. These may follow each other in this order.
use crate::listed_files::listed_text;
use std::alloc::{AllocError, Global};

const DIGITS: [u8; 16] = *b"0123456789abcdef";

/// The two parts of a text around a letter. If the letter is missing, the second part is empty.
pub fn halves(text: &str, letter: char) -> (&str, &str) {
    text.split_once(letter).unwrap_or((text, ""))
}

/// A number, or 0 if the text is none.
pub fn number(text: &str) -> usize {
    text.parse::<usize>().unwrap_or(0)
}

fn digit(number: usize) -> u8 {
    DIGITS[number % 16]
}

/// A letter of an item for one number. `#` and `&` are the number's last two decimal digits, `^`
/// and `~` its last two hexadecimal ones.
fn letter(byte: u8, number: usize) -> u8 {
    match byte {
        b'#' => digit(number / 10 % 10),
        b'&' => digit(number % 10),
        b'^' => digit(number / 16),
        b'~' => digit(number),
        _ => byte,
    }
}

fn put_item(out: &mut Vec<u8>, item: &str, number: usize) -> Result<(), AllocError> {
    for byte in item.bytes() {
        out.push(letter(byte, number))?;
    }
    Ok(())
}

/// Appends an item for each number of a range: `9` is from 0 to 8, `4.9` from 4 to 8.
fn put_items(out: &mut Vec<u8>, range: &str, item: &str) -> Result<(), AllocError> {
    let (from, to) = range.split_once('.').unwrap_or(("0", range));
    for n in number(from)..number(to) {
        put_item(out, item, n)?;
    }
    Ok(())
}

/// Appends `RANGE(ITEM)TEXT`.
fn put_piece(out: &mut Vec<u8>, piece: &str) -> Result<(), AllocError> {
    let (range, rest) = halves(piece, '(');
    let (item, rest) = halves(rest, ')');
    put_items(out, range, item)?;
    Ok(out.extend_from_slice(rest.as_bytes())?)
}

/// Expands each `%RANGE(ITEM)` in a text.
fn written_out(alloc: Global, text: &str) -> Result<Vec<u8>, AllocError> {
    let (front, rest) = halves(text, '%');
    let mut out = Vec::from_slice(alloc, front.as_bytes())?;
    for piece in rest.split('%') {
        put_piece(&mut out, piece)?;
    }
    Ok(out)
}

/// The bytes without spaces.
fn without_spaces(alloc: Global, bytes: &[u8]) -> Result<Vec<u8>, AllocError> {
    let mut out = Vec::new(alloc);
    for byte in bytes {
        if *byte != b' ' {
            out.push(*byte)?;
        }
    }
    Ok(out)
}

/// The bytes with a line feed for each `/`.
pub fn with_lines(alloc: Global, bytes: &[u8]) -> Result<Vec<u8>, AllocError> {
    let mut out = Vec::new(alloc);
    for byte in bytes {
        out.push(if *byte == b'/' { b'\n' } else { *byte })?;
    }
    Ok(out)
}

/// Hexadecimal digits as bytes.
fn from_hex(alloc: Global, digits: &[u8]) -> Result<Vec<u8>, AllocError> {
    hex::decode(alloc, digits).map_err(|_| AllocError)
}

/// A listed file. Its kind is `hex` for hexadecimal digits or else a text.
fn listed_file(alloc: Global, name: &str) -> Result<Option<Vec<u8>>, AllocError> {
    let Some(text) = listed_text(name) else {
        return Ok(None);
    };
    let (kind, text) = halves(text, ' ');
    let bytes = written_out(alloc, text)?;
    if kind == "hex" {
        let digits = without_spaces(alloc, &bytes)?;
        return Ok(Some(from_hex(alloc, &digits)?));
    }
    Ok(Some(with_lines(alloc, &bytes)?))
}

/// Replaces bytes: `AT=HEX`.
fn replace(alloc: Global, bytes: &mut Vec<u8>, change: &str) -> Result<(), AllocError> {
    let (at, digits) = halves(change, '=');
    let new = from_hex(alloc, digits.as_bytes())?;
    let at = number(at);
    let end = at.saturating_add(new.len());
    if at <= end && end <= bytes.len() {
        bytes[at..end].copy_from_slice(&new);
    }
    Ok(())
}

/// Appends bytes: `HEX` or `HEX*TIMES`.
fn append(alloc: Global, bytes: &mut Vec<u8>, added: &str) -> Result<(), AllocError> {
    let (digits, times) = halves(added, '*');
    let more = from_hex(alloc, digits.as_bytes())?;
    for _ in 0..number(times).max(1) {
        bytes.extend_from_slice(&more)?;
    }
    Ok(())
}

/// The file of a name. None if the name has no listed file.
pub fn file(alloc: Global, name: &str) -> Result<Option<Vec<u8>>, AllocError> {
    let (front, added) = halves(name, '+');
    let (front, change) = halves(front, '@');
    let (base, len) = halves(front, ':');
    let Some(mut bytes) = listed_file(alloc, base)? else {
        return Ok(None);
    };
    if !len.is_empty() {
        bytes.truncate(number(len));
    }
    replace(alloc, &mut bytes, change)?;
    append(alloc, &mut bytes, added)?;
    Ok(Some(bytes))
}
