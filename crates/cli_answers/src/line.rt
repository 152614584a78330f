//! `AnswerLine`, a short text in an array, so that an error can be reported when no memory is left.
ghost use Rattle.std.specs.Prelude.{◌≡◌, ◌+◌, ◌≤◌, [], ◌∷◌, ◌++◌, length, map, decimal};
ghost use Rattle.cli_answers.specs.Answers.{printable};
ghost use Rattle.cli_answers.specs.Outcome.{WritesLine};
ghost use Rattle.det_io.specs.Traffic.{sink_run};

use det_io::{Sink, write_all};
use itoa::Buffer;
use std::marker::Model;

const ROOM: usize = 160;

/// A text of at most 160 bytes. The longest line of an answer fits.
#[derive(Drop)]
pub struct AnswerLine {
    bytes: [u8; 160],
    len: usize,
}

impl Model for AnswerLine {
    ghost use Rattle.std.specs.Prelude.{ℕ, List, take, ◌≤◌};

    ghost Value = { List ℕ };

    ghost view = { λ a. take a.len a.bytes };

    ghost invariant = { λ a. a.len ≤ 160 };
}

fn printable(byte: u8) -> u8
    ensures { result ≡ printable byte }
{
    if byte.is_ascii_graphic() { byte } else { b'?' }
}

impl AnswerLine {
    /// The empty text.
    pub fn new() -> AnswerLine
        ensures { result ≡ [] }
    {
        AnswerLine {
            bytes: [0; ROOM],
            len: 0,
        }
    }

    /// A line of this text.
    pub fn from_text(text: &str) -> AnswerLine
        requires { length text.now ≤ 160 }
        ensures { result ≡ text.now }
    {
        let mut line = AnswerLine::new();
        line.push(text);
        line
    }

    /// Appends a text.
    pub fn push(&mut self, text: &str)
        requires { length self.old + length text.now ≤ 160 }
        ensures { self.new ≡ self.old ++ text.now }
    {
        let end = self.len + text.len();
        self.bytes[self.len..end].copy_from_slice(text.as_bytes());
        self.len = end;
    }

    /// Appends a number in decimal, which takes at most 20 digits.
    pub fn push_number(&mut self, number: u64)
        requires { length self.old + 20 ≤ 160 }
        ensures text { self.new ≡ self.old ++ decimal number }
        ensures short { length self.new ≤ length self.old + 20 }
    {
        let mut buffer = Buffer::new();
        self.push(buffer.format(number));
    }

    fn push_byte(&mut self, byte: u8)
        requires { length self.old + 1 ≤ 160 }
        ensures { self.new ≡ self.old ++ byte ∷ [] }
    {
        self.bytes[self.len] = byte;
        self.len += 1;
    }

    /// Appends bytes, with `?` for a space and for every byte that isn't printable ASCII.
    pub fn push_printable(&mut self, bytes: &[u8])
        requires { length self.old + length bytes.now ≤ 160 }
        ensures { self.new ≡ self.old ++ map printable bytes.now }
    {
        for byte in bytes {
            self.push_byte(printable(*byte));
        }
    }

    /// The bytes as a slice.
    pub fn as_slice(&self) -> &[u8]
        ensures bytes { result.now ≡ self.now }
        ensures short { length result.now ≤ 160 }
    {
        &self.bytes[..self.len]
    }
}

/// Writes the line that a program ends with. A write that fails is not reported: no other stream is
/// left for that.
pub fn write_line<E: Sink>(line: &AnswerLine, err: &mut E)
    ensures { WritesLine line.now (sink_run E.took E.faults err.old err.new) }
{
    let _ = write_all(err, line.as_slice());
}
