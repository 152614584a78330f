//! Finds the end of the first line.
ghost use Rattle.stimulus.specs.FirstLine.{FirstLineIs};

use crate::parse_line::find;

const MAX_LINE: usize = 128;

/// What some bytes begin with.
#[derive(Clone, Copy, Debug, PartialEq, Eq, Drop)]
pub enum FirstLine {
    /// A line of this many bytes, and then its LF.
    Whole(usize),
    /// A line that may go on.
    Open,
    TooLong,
}

/// What the bytes begin with. At most 129 of them are looked at.
pub fn first_line(bytes: &[u8]) -> FirstLine
    ensures { FirstLineIs result bytes.now }
{
    if bytes.len() <= MAX_LINE {
        return match find(b'\n', bytes) {
            Some(end) => FirstLine::Whole(end),
            None => FirstLine::Open,
        };
    }
    match find(b'\n', &bytes[..MAX_LINE + 1]) {
        Some(end) => FirstLine::Whole(end),
        None => FirstLine::TooLong,
    }
}
