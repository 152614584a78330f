//! Which arguments are names, and of which kind.
ghost use Rattle.std.specs.Prelude.{◌≡◌};
ghost use Rattle.cli_words.specs.Names.{is_name, is_name_of};

use crate::number::number_of;
use crate::table::{CommandWord, NameKind};

/// Whether an argument can be a name: it isn't empty and doesn't begin with `-`.
pub fn is_name(word: &str) -> bool
    ensures { result ≡ is_name word.now }
{
    match word.as_bytes() {
        [] => false,
        [first, ..] => *first != b'-',
    }
}

impl NameKind {
    /// Whether an argument is a name of this kind.
    pub(crate) fn takes(self, word: &str) -> bool
        ensures { result ≡ is_name_of self word.now }
    {
        if !is_name(word) {
            return false;
        }
        match self {
            NameKind::File => true,
            NameKind::Number => number_of(word).is_some(),
            NameKind::Command => CommandWord::from_word(word).is_some(),
        }
    }
}
