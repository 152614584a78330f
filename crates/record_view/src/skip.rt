//! Skips lists of elements, and counts how far it came.
ghost use Rattle.std.specs.Prelude.{◌≡◌};
ghost use Rattle.record_grammar.specs.Grammar.{element_at, drawn_at};
ghost use Rattle.record_view.specs.Skips.{IsSkip};

use crate::field::drawn_element;
use crate::stop::Stop;
use det_values::Format;

/// How far elements were skipped.
#[derive(Clone, Copy, Drop)]
pub struct Skip {
    /// How many elements are left.
    pub left: u32,
    /// How many bytes were skipped.
    pub read: usize,
    /// Why the next element couldn't be read, where some are left.
    pub stop: Option<Stop>,
}

/// Skips up to `most` elements of an Init frame, which are spelled as those of format 1.
pub fn skip_elements(most: u32, bytes: &[u8]) -> Skip
    ensures { IsSkip element_at most result bytes.now }
{
    skip_drawn(Format::One, most, bytes)
}

/// Skips up to `most` elements of a finished cycle.
pub fn skip_drawn(format: Format, most: u32, bytes: &[u8]) -> Skip
    ensures { IsSkip (drawn_at format) most result bytes.now }
{
    let mut left = most;
    let mut rest = bytes;
    while left > 0 {
        match drawn_element(format, rest) {
            Ok((_, _, others)) => {
                rest = others;
                left -= 1;
            }
            Err(stop) => {
                let read = bytes.len() - rest.len();
                return Skip {
                    left,
                    read,
                    stop: Some(stop),
                };
            }
        }
    }
    let read = bytes.len() - rest.len();
    Skip {
        left,
        read,
        stop: None,
    }
}
