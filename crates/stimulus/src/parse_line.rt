//! One line, from its text.
ghost use Rattle.std.specs.Prelude.{◌≡◌, ◌==◌, position};
ghost use Rattle.stimulus.specs.Lines.{line_of, cycle_line, sample_line};

use crate::decimal::{number_below, sample_value};
use det_values::Sample;

/// The content of a line.
#[derive(Clone, Copy, Debug, PartialEq, Eq, Drop)]
pub enum Line {
    Stim,
    Cycle(Option<u64>),
    Sample(Sample),
    Terminate,
}

/// The first place of a byte.
pub(crate) fn find(byte: u8, bytes: &[u8]) -> Option<usize>
    ensures { result ≡ position (λ b. b == byte) bytes.now }
{
    bytes.iter().position(|b| *b == byte)
}

fn cycle(time: &[u8]) -> Option<Line>
    ensures { result ≡ cycle_line time.now }
{
    if time == b"-".as_slice() {
        return Some(Line::Cycle(None));
    }
    match number_below(1 << 64, time) {
        Some(nanoseconds) => Some(Line::Cycle(Some(nanoseconds))),
        None => None,
    }
}

fn sample(events: u16, words: &[u8]) -> Option<Line>
    ensures { result ≡ sample_line events words.now }
{
    match find(b' ', words) {
        None => None,
        Some(space) => match number_below(events as u128, &words[..space]) {
            None => None,
            Some(event) => match sample_value(&words[space + 1..]) {
                None => None,
                Some(value) => Some(Line::Sample(Sample {
                    event: event as u16,
                    value,
                })),
            },
        },
    }
}

/// Reads a line, without its LF, for a profile with this number of events. None for any other text.
#[tactic(auto, unfolding(crate::specs::Lines::line_of))]
pub fn parse_line(events: u16, line: &[u8]) -> Option<Line>
    ensures { result ≡ line_of events line.now }
{
    if line == b"stim 1".as_slice() {
        return Some(Line::Stim);
    }
    if line == b"terminate".as_slice() {
        return Some(Line::Terminate);
    }
    if let Some(time) = line.strip_prefix(b"cycle ".as_slice()) {
        return cycle(time);
    }
    match line.strip_prefix(b"sample ".as_slice()) {
        Some(words) => sample(events, words),
        None => None,
    }
}
