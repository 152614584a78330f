//! Numbers in decimal, each with one spelling.
ghost use Rattle.std.specs.Prelude.{◌≡◌};
ghost use Rattle.cli_words.specs.Number.{number_of};

use itoa::Buffer;

/// The 64-bit number that a text spells in decimal. A sign, a leading zero other than in `0`
/// itself, and anything beyond 64 bits are refused.
pub fn number_of(word: &str) -> Option<u64>
    ensures { result ≡ number_of word.now }
{
    let Ok(number) = word.parse::<u64>() else {
        return None;
    };
    let mut buffer = Buffer::new();
    if buffer.format(number) == word {
        Some(number)
    } else {
        None
    }
}
