//! A short line, which is built on the stack and appended to a text at once.
ghost use Rattle.std.specs.Prelude.{◌≡◌, ◌≤◌, ◌+◌, ◌*◌, ◌++◌, [], length, decimal};
ghost use Rattle.hex.specs.Hex.{encode_lower};
ghost use Rattle.record_text.specs.Words.{hex_text};

use crate::hex_digits::encode_hex;
use itoa::write_digits;
use std::marker::Model;

/// The greatest length of a line in bytes. The longest line is that of an element, with at most
/// 159.
const ROOM: usize = 160;

/// A line that grows at its front. The digits of a number are found from the last one on, so they
/// are written in place without a count of them before.
#[derive(Drop)]
pub struct LineBuffer {
    bytes: [u8; ROOM],
    from: usize,
}

impl Model for LineBuffer {
    ghost use Rattle.std.specs.Prelude.{ℕ, List, drop, ◌≤◌};

    ghost Value = { List ℕ };

    ghost view = { λ l. drop l.from l.bytes };

    ghost invariant = { λ l. l.from ≤ 160 };
}

impl LineBuffer {
    /// An empty line.
    pub fn new() -> LineBuffer
        ensures { result ≡ [] }
    {
        LineBuffer {
            bytes: [0; ROOM],
            from: ROOM,
        }
    }

    /// Puts a text before the line.
    pub fn prepend_str(&mut self, words: &str)
        requires { length words.now + length self.old ≤ 160 }
        ensures { self.new ≡ words.now ++ self.old }
    {
        let to = self.from;
        self.from -= words.len();
        self.bytes[self.from..to].copy_from_slice(words.as_bytes());
    }

    /// Puts a number in decimal before the line.
    pub fn prepend_number(&mut self, number: u32)
        requires { 10 + length self.old ≤ 160 }
        ensures text { self.new ≡ decimal number ++ self.old }
        ensures short { length self.new ≤ 10 + length self.old }
    {
        self.from = write_digits(number as u64, &mut self.bytes, self.from);
    }

    /// Puts bytes before the line, as hex digits in lower case, or a dash if there are none.
    pub fn prepend_hex(&mut self, bytes: &[u8])
        requires few { length bytes.now ≤ 64 }
        requires room { 128 + length self.old ≤ 160 }
        ensures text { self.new ≡ hex_text bytes.now ++ self.old }
        ensures short { length self.new ≤ 128 + length self.old }
    {
        match bytes {
            [] => self.prepend_str("-"),
            _ => self.prepend_digits(bytes),
        }
    }

    fn prepend_digits(&mut self, bytes: &[u8])
        requires { 2 * length bytes.now + length self.old ≤ 160 }
        ensures text { self.new ≡ encode_lower bytes.now ++ self.old }
        ensures len { length self.new ≡ 2 * length bytes.now + length self.old }
    {
        let to = self.from;
        self.from -= 2 * bytes.len();
        encode_hex(bytes, &mut self.bytes[self.from..to]);
    }

    pub fn as_slice(&self) -> &[u8]
        ensures { result.now ≡ self.now }
    {
        &self.bytes[self.from..]
    }
}
