//! Finds the first argument of `det_twin` at which the arguments stop being twins.
use cli_words::number_of;
use hints_on_words::{WordsFault, misplaced_word};

/// Its arguments before the options, by their names in the usage.
const PLACES: [&str; 3] = ["COPIES", "MANIFEST", "STIM"];

/// The options that were read so far, and how many arguments were read.
#[derive(Clone, Copy)]
struct OptionsSoFar {
    words: usize,
    strict: bool,
    flip: bool,
}

/// Checks a number after `--flip`, from 0 to `most`.
fn flip_number<'a>(
    words: &'a [String],
    place: usize,
    what: &'static str,
    most: u64,
) -> Result<(), WordsFault<'a>> {
    match words.get(place) {
        Some(word) => WordsFault::check_number(place, word.as_str(), "--flip", (0, most)),
        None => Err(WordsFault::MissingAfter(what, "--flip")),
    }
}

impl OptionsSoFar {
    /// Reads the next option. The options stay as they are if no argument is left.
    fn with_option<'a>(
        self,
        copies: u64,
        words: &'a [String],
    ) -> Result<OptionsSoFar, WordsFault<'a>> {
        let place = self.words;
        let Some(word) = words.get(place) else {
            return Ok(self);
        };
        match word.as_str() {
            "--strict" if !self.strict => Ok(OptionsSoFar {
                words: place.saturating_add(1),
                strict: true,
                ..self
            }),
            "--flip" if !self.flip => {
                flip_number(
                    words,
                    place.saturating_add(1),
                    "a copy",
                    copies.saturating_sub(1),
                )?;
                flip_number(words, place.saturating_add(2), "a frame", u32::MAX as u64)?;
                Ok(OptionsSoFar {
                    words: place.saturating_add(3),
                    flip: true,
                    ..self
                })
            }
            other => Err(WordsFault::at(place, other)),
        }
    }
}

/// Why arguments are no twins. None if they are.
pub(crate) fn words_fault(words: &[String]) -> Option<WordsFault<'_>> {
    let fault = misplaced_word(&PLACES, words);
    if fault.is_some() {
        return fault;
    }
    let copies = number_of(words.first()?.as_str())?;
    let mut so_far = OptionsSoFar {
        words: PLACES.len(),
        strict: false,
        flip: false,
    };
    for _ in 0..words.len() {
        match so_far.with_option(copies, words) {
            Ok(next) => so_far = next,
            Err(fault) => return Some(fault),
        }
    }
    None
}
