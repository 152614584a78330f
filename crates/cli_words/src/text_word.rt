//! `TextWord`, the only argument that asks `det_lane` or `det_twin` for a text.
ghost use Rattle.std.specs.Prelude.{◌≡◌};
ghost use Rattle.cli_words.specs.PlainWords.{text_word};

use crate::reading::long_form;

/// The text that is asked for.
#[derive(Clone, Copy)]
pub enum TextWord {
    Help,
    Version,
}

impl TextWord {
    /// Reads `--help`, `--version` or another form of them.
    pub fn from_word(word: &str) -> Option<TextWord>
        ensures { result ≡ text_word word.now }
    {
        match long_form(word) {
            "--help" => Some(TextWord::Help),
            "--version" => Some(TextWord::Version),
            _ => None,
        }
    }
}
