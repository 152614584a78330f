//! The text of a key, stored in place.
ghost use Rattle.std.specs.Prelude.{◌≡◌, ◌+◌, ◌≤◌, ◌∷◌, ◌++◌, length, decimal};

use arrayvec::ArrayString;
use itoa::Buffer;
use std::marker::Model;

/// The text of a key, of at most 48 bytes. It takes no memory but its own place.
#[derive(Drop)]
pub struct KeyText {
    text: ArrayString<48>,
}

impl Model for KeyText {
    ghost use Rattle.std.specs.Prelude.{List, ℕ};

    ghost Value = { List ℕ };

    ghost view = { λ k. k.text.bytes };
}

impl KeyText {
    pub(crate) fn new(word: &str) -> KeyText
        requires { length word.now ≤ 48 }
        ensures { result ≡ word.now }
    {
        let mut text = ArrayString::new();
        text.push_str(word);
        KeyText { text }
    }

    /// Appends a dot and the name of a member.
    pub(crate) fn member(mut self, word: &str) -> KeyText
        requires { length self + length word.now ≤ 47 }
        ensures { result ≡ self ++ 46 ∷ word.now }
    {
        self.text.push_str(".");
        self.text.push_str(word);
        self
    }

    /// Appends a dot and the number of an item.
    pub(crate) fn item(self, number: u16) -> KeyText
        requires { length self ≤ 42 }
        ensures text { result ≡ self ++ 46 ∷ decimal number }
        ensures short { length result ≤ length self + 6 }
    {
        let mut digits = Buffer::new();
        self.member(digits.format(number))
    }

    /// The text.
    pub fn as_str(&self) -> &str
        ensures text { result.now ≡ self.now }
        ensures short { length result.now ≤ 48 }
    {
        self.text.as_str()
    }

    /// The bytes of the text.
    pub fn as_slice(&self) -> &[u8]
        ensures bytes { result.now ≡ self.now }
        ensures short { length result.now ≤ 48 }
    {
        self.as_str().as_bytes()
    }
}
