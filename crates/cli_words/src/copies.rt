//! The number of copies that `det_lane` and `det_twin` run side by side.
ghost use Rattle.std.specs.Prelude.{◌≡◌, ◌≤◌, IfSome};
ghost use Rattle.cli_words.specs.PlainWords.{copy_words_in, parse_copies};

use crate::number::number_of;

fn copy_words_in(number: u64) -> Option<u32>
    ensures is { result ≡ copy_words_in number }
    ensures some { IfSome result (λ copies. 2 ≤ copies) }
    ensures few { IfSome result (λ copies. copies ≤ 8) }
{
    if (2..=8).contains(&number) {
        Some(number as u32)
    } else {
        None
    }
}

/// Reads a number of copies: 2 to 8 in decimal.
pub fn parse_copies(word: &str) -> Option<u32>
    ensures is { result ≡ parse_copies word.now }
    ensures some { IfSome result (λ copies. 2 ≤ copies) }
    ensures few { IfSome result (λ copies. copies ≤ 8) }
{
    copy_words_in(number_of(word)?)
}
