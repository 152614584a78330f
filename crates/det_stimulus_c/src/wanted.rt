//! What may come in place of a bad line. Its words are those of the hints of `det`.
ghost use Rattle.std.specs.Prelude.{◌≡◌, ◌≤◌, length, true, IfSome};
ghost use Rattle.det_stimulus_c.specs.Wants.{number_of_wish, may_want_first, may_want_between};
ghost use Rattle.det_stimulus_c.specs.Wants.{may_want_inside};

use stimulus::Wanted;
use stimulus::parse_line::parse_line;

/// What is wanted where some bytes begin.
#[derive(Clone, Copy, Drop)]
pub enum Wish {
    /// Nothing else: a good line comes next.
    Nothing,
    /// All bytes are a good line that lacks its LF.
    LineFeed,
    /// What may come in place of a bad line.
    Other(Wanted),
}

impl Wish {
    /// 0 for nothing, 1 to 10 for the bad lines in the order of `Wanted`, and 11 for a line feed.
    pub(crate) fn number(self) -> u8
        ensures number { result ≡ number_of_wish self }
        ensures range { result ≤ 11 }
    {
        match self {
            Wish::Nothing => 0,
            Wish::Other(Wanted::FirstLine) => 1,
            Wish::Other(Wanted::FirstBlock) => 2,
            Wish::Other(Wanted::Line) => 3,
            Wish::Other(Wanted::NoMore) => 4,
            Wish::Other(Wanted::ShortLine) => 5,
            Wish::Other(Wanted::NoReturn) => 6,
            Wish::Other(Wanted::Time) => 7,
            Wish::Other(Wanted::Event { .. }) => 8,
            Wish::Other(Wanted::Value) => 9,
            Wish::Other(Wanted::FewSamples) => 10,
            Wish::LineFeed => 11,
        }
    }
}

fn has_return(line: &[u8]) -> bool {
    line.ends_with(b"\r".as_slice())
}

fn is_cycle(line: &[u8]) -> bool {
    line.starts_with(b"cycle ".as_slice())
}

/// What may come in place of a bad first line.
pub(crate) fn wanted_first(line: &[u8]) -> Wanted
    ensures { may_want_first result ≡ true }
{
    if has_return(line) {
        return Wanted::NoReturn;
    }
    Wanted::FirstLine
}

/// The same after the first line.
pub(crate) fn wanted_between(line: &[u8]) -> Wanted
    ensures { may_want_between result ≡ true }
{
    if has_return(line) {
        return Wanted::NoReturn;
    }
    if is_cycle(line) {
        return Wanted::Time;
    }
    Wanted::FirstBlock
}

/// The same in a block.
pub(crate) fn wanted_inside(events: u16, line: &[u8]) -> Wanted
    requires { length line.now ≤ 128 }
    ensures { may_want_inside result ≡ true }
{
    if has_return(line) {
        return Wanted::NoReturn;
    }
    if is_cycle(line) {
        return Wanted::Time;
    }
    match event_end(line) {
        None => Wanted::Line,
        Some(end) => wanted_in_sample(events, line, end),
    }
}

/// Where the event of a sample ends, before the space in front of its value.
fn event_end(line: &[u8]) -> Option<usize>
    ensures { IfSome result (λ end. end ≤ length line.now) }
{
    let words = line.strip_prefix(b"sample ".as_slice())?;
    let space = words.iter().position(|byte| *byte == b' ')?;
    Some(line.len() - words.len() + space)
}

/// What may come in place of a bad sample whose event ends there.
fn wanted_in_sample(events: u16, line: &[u8], end: usize) -> Wanted
    requires end { end ≤ length line.now }
    requires short { length line.now ≤ 128 }
    ensures { may_want_inside result ≡ true }
{
    if !has_event(events, &line[..end]) {
        return Wanted::Event { events };
    }
    match parse_line(events, line) {
        None => Wanted::Value,
        Some(_) => Wanted::FewSamples,
    }
}

/// Whether `sample E 0` is a line, where these bytes are `sample E`.
fn has_event(events: u16, bytes: &[u8]) -> bool
    requires { length bytes.now ≤ 128 }
{
    let end = bytes.len();
    let mut line = [0; 130];
    line[..end].copy_from_slice(bytes);
    line[end..end + 2].copy_from_slice(b" 0");
    parse_line(events, &line[..end + 2]).is_some()
}
