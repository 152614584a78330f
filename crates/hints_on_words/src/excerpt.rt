//! `Excerpt`, untrusted bytes made fit for a terminal.
ghost use Rattle.std.specs.Prelude.{◌≡◌, Some, take};
ghost use Rattle.hints_on_words.specs.Texts.{dots, printable, excerpt_text};

use std::fmt;
use std::fmt::{Display, Formatter, Write};

/// How many bytes are printed.
const MOST: usize = 64;

/// The first 64 of these bytes, and two dots if there are more. A byte that isn't a printable ASCII
/// character is printed as `?`, so no control character reaches the terminal.
#[derive(Clone, Copy, Debug)]
pub struct Excerpt<'a>(pub &'a [u8]);

fn printable(byte: u8) -> char
    ensures { result ≡ printable byte }
{
    match byte {
        b' '..=b'~' => byte as char,
        _ => '?',
    }
}

fn front(bytes: &[u8]) -> &[u8]
    ensures { result.now ≡ take 64 bytes.now }
{
    if bytes.len() > MOST {
        &bytes[..MOST]
    } else {
        bytes
    }
}

fn dots(bytes: &[u8]) -> &'static str
    ensures { result.now ≡ dots bytes.now }
{
    if bytes.len() > MOST { ".." } else { "" }
}

impl Display for Excerpt<'_> {
    ghost output = { λ shown. Some (excerpt_text shown.0.now) };

    fn fmt<W: Write>(&self, f: &mut Formatter<W>) -> fmt::Result {
        for byte in front(self.0) {
            f.write_char(printable(*byte))?;
        }
        f.write_str(dots(self.0))
    }
}
