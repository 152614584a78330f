//! `Wanted`, what may come in a stimulus in place of a bad line.
use crate::decimal::{number_below, sample_value};
use crate::first_line::{FirstLine, first_line};
use crate::parse_line::find;
use crate::state::State;
use thiserror::Error;

/// What may come in place of a bad line, and its text. No contract says which of these it is.
#[derive(Clone, Copy, Debug, PartialEq, Eq, Drop, Error)]
pub enum Wanted {
    #[error("stim 1")]
    FirstLine,
    /// After the first line.
    #[error("cycle T, cycle - or terminate")]
    FirstBlock,
    /// Inside a block.
    #[error("cycle T, cycle -, sample E V or terminate")]
    Line,
    #[error("nothing behind terminate")]
    NoMore,
    #[error("a line of at most 128 bytes")]
    ShortLine,
    #[error("no carriage return at the end of a line")]
    NoReturn,
    #[error("T as a decimal, 0 to 18446744073709551615")]
    Time,
    /// The profile has this number of events.
    #[error("E as a decimal below {events}")]
    Event { events: u16 },
    #[error("V as a decimal, -1000000000000 to 1000000000000")]
    Value,
    #[error("at most 4096 samples in a cycle")]
    FewSamples,
}

impl Wanted {
    /// What may come in this state in place of the bad line with which the bytes begin.
    pub(crate) fn after(state: &State, events: u16, bytes: &[u8]) -> Wanted {
        if matches!(state, State::Last | State::Ended) {
            return Wanted::NoMore;
        }
        let FirstLine::Whole(end) = first_line(bytes) else {
            return Wanted::ShortLine;
        };
        let line = &bytes[..end];
        if line.ends_with(b"\r".as_slice()) {
            return Wanted::NoReturn;
        }
        match state {
            State::First => Wanted::FirstLine,
            _ if line.starts_with(b"cycle ".as_slice()) => Wanted::Time,
            State::Between => Wanted::FirstBlock,
            _ => match line.strip_prefix(b"sample ".as_slice()) {
                Some(words) => Wanted::in_sample(events, words),
                None => Wanted::Line,
            },
        }
    }

    /// The same for what comes after `sample ` in a block.
    fn in_sample(events: u16, words: &[u8]) -> Wanted {
        let Some(space) = find(b' ', words) else {
            return Wanted::Line;
        };
        match number_below(events as u128, &words[..space]) {
            None => Wanted::Event { events },
            Some(_) => match sample_value(&words[space + 1..]) {
                None => Wanted::Value,
                Some(_) => Wanted::FewSamples,
            },
        }
    }
}
