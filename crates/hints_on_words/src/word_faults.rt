//! `WordsFault`, why arguments are no command, and the check of arguments at fixed places.
ghost use Rattle.std.specs.Prelude.{◌≤◌, length, IsNone};

use crate::excerpt::Excerpt;
use cli_words::{is_name, number_of};
use thiserror::Error;

/// Why arguments are no command. They are counted from 1, after the program's name.
#[derive(Clone, Copy, Debug, Drop, Error)]
pub enum WordsFault<'a> {
    /// An argument that can't be at its place.
    #[error("at the word {number}: {word}")]
    At {
        number: usize,
        word: Excerpt<'a>,
    },
    /// An argument in place of a number. `taker` is the option or the place that takes the number.
    #[error("at the word {number}: {word}, where {taker} takes {least} to {most}")]
    OutOfRange {
        number: usize,
        word: Excerpt<'a>,
        taker: &'static str,
        least: u64,
        most: u64,
    },
    #[error("{0} is missing")]
    Missing(&'static str),
    /// What is missing after the last argument, and the argument that needs it.
    #[error("{0} is missing behind {1}")]
    MissingAfter(&'static str, &'static str),
    #[error("{0} and {1} stand together")]
    Both(&'static str, &'static str),
}

impl<'a> WordsFault<'a> {
    /// The fault of an argument that can't be at its place, which is counted from 0.
    pub fn at(place: usize, word: &'a str) -> WordsFault<'a> {
        WordsFault::At {
            number: place.saturating_add(1),
            word: Excerpt(word.as_bytes()),
        }
    }

    /// Checks that the argument at a place, counted from 0, is a number from `least` to `most`.
    pub fn check_number(
        place: usize,
        word: &'a str,
        taker: &'static str,
        (least, most): (u64, u64),
    ) -> Result<(), WordsFault<'a>> {
        match number_of(word) {
            Some(number) if least <= number && number <= most => Ok(()),
            _ => Err(WordsFault::OutOfRange {
                number: place.saturating_add(1),
                word: Excerpt(word.as_bytes()),
                taker,
                least,
                most,
            }),
        }
    }
}

/// The first of these places, named as in the usage, whose argument is missing or unfit. COPIES
/// takes a number from 2 to 8, any other place the path of a file.
pub fn misplaced_word<'a>(places: &[&'static str], words: &'a [String]) -> Option<WordsFault<'a>>
    ensures { IsNone result → length places.now ≤ length words.now }
{
    for place in 0..places.len() {
        let name = places[place];
        let Some(word) = words.get(place) else {
            return Some(WordsFault::Missing(name));
        };
        let checked = match name {
            "COPIES" => WordsFault::check_number(place, word.as_str(), name, (2, 8)),
            _ if is_name(word.as_str()) => Ok(()),
            _ => Err(WordsFault::at(place, word.as_str())),
        };
        if let Err(fault) = checked {
            return Some(fault);
        }
    }
    None
}
