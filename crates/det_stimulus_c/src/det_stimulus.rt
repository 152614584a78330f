//! The place of a stimulus, which is all that is kept of it between two calls.
ghost use Rattle.std.specs.Prelude.{◌≡◌, ◌<◌, ◌≤◌, ◌+◌, ◌^◌, ◌↔◌, IsTrue, true, length};

use crate::found::Found;
use crate::wanted::{Wish, wanted_between, wanted_first, wanted_inside};
use stimulus::first_line::{FirstLine, first_line};
use stimulus::parse_line::{Line, parse_line};
use stimulus::{LinePlace, Wanted};

/// How far a stimulus was read: its number of good lines, of its blocks, and of the samples of the
/// last one. The stage is 0 before the first line, 1 after it and 2 in a block. It is any other
/// number after the line `terminate`.
#[repr(C)]
#[derive(Drop)]
pub struct DetStimulus {
    pub lines: u64,
    pub blocks: u32,
    pub samples: u16,
    pub events: u16,
    pub stage: u8,
}

impl DetStimulus {
    ghost use Rattle.std.specs.Prelude.{ℕ, List};
    ghost use Rattle.stimulus.specs.declared.line_place.LinePlace.TheVariants as places;
    ghost use Rattle.det_stimulus_c.specs.Taken.{place_of, HasTaken};
    ghost use Rattle.det_stimulus_c.specs.Steps.{FoundIs, Stays, GoesOn, TakenIs};
    ghost use Rattle.det_stimulus_c.specs.Wants.{IsGoodLine, IsWish, may_want};

    fn place(&self) -> LinePlace
        ensures { result ≡ place_of self.now }
    {
        match self.stage {
            0 => LinePlace::First,
            1 => LinePlace::Between,
            2 => LinePlace::Inside {
                blocks: self.blocks,
                samples: self.samples,
            },
            _ => LinePlace::Ended,
        }
    }

    /// Whether the line `terminate` was taken.
    fn has_ended(&self) -> bool
        ensures { IsTrue result ↔ (place_of self.now ≡ places.Ended) }
    {
        matches!(self.place(), LinePlace::Ended)
    }

    /// Whether the line `terminate` was taken, and this number of bytes after it is 0.
    pub(crate) fn is_whole(&self, left: usize) -> bool
        ensures { IsTrue result ↔ ((place_of self.now ≡ places.Ended) × (left ≡ 0)) }
    {
        self.has_ended() && left == 0
    }

    /// Whether there are bytes after the line `terminate`.
    fn is_past_end(&self, bytes: &[u8]) -> bool
        ensures { IsTrue result
            ↔ ((place_of self.now ≡ places.Ended) × (0 < length bytes.now)) }
    {
        self.has_ended() && !bytes.is_empty()
    }

    /// The number of the next line. No stimulus has as many lines as would overflow.
    pub(crate) fn next_line(&self) -> u64
        ensures { self.now.lines + 1 < 2 ^ 64 → result ≡ self.now.lines + 1 }
    {
        match self.lines {
            u64::MAX => u64::MAX,
            lines => lines + 1,
        }
    }

    /// Moves to the place after a line.
    fn go_on(&mut self, place: LinePlace)
        ensures { GoesOn place self.old self.new }
    {
        self.lines = self.next_line();
        match place {
            LinePlace::First => self.stage = 0,
            LinePlace::Between => self.stage = 1,
            LinePlace::Inside { blocks, samples } => {
                self.blocks = blocks;
                self.samples = samples;
                self.stage = 2;
            }
            LinePlace::Ended => self.stage = 3,
        }
    }

    /// Takes a line that is spelled well, of `taken` bytes with its LF, if it may come here.
    fn take_line(&mut self, line: Line, taken: usize) -> Found
        ensures { TakenIs result line taken self.old self.new }
    {
        match self.place().after(&line) {
            None => Found::Bad,
            Some(place) => {
                self.go_on(place);
                Found::Good(line, taken)
            }
        }
    }

    /// Takes the line with which the bytes begin, if it is good. At most 129 bytes are looked at.
    pub(crate) fn take(&mut self, bytes: &[u8]) -> Found
        ensures stays { Stays result self.old self.new }
        ensures found { (text : List ℕ) → HasTaken self.old text
            → FoundIs result self.old self.new text bytes.now }
    {
        match first_line(bytes) {
            FirstLine::TooLong => Found::Bad,
            FirstLine::Open => {
                if self.is_past_end(bytes) {
                    return Found::Bad;
                }
                Found::More
            }
            FirstLine::Whole(end) => match parse_line(self.events, &bytes[..end]) {
                None => Found::Bad,
                Some(line) => self.take_line(line, end + 1),
            },
        }
    }

    /// Whether a line, without its LF, is good here.
    fn is_good(&self, line: &[u8]) -> bool
        ensures { IsTrue result → IsGoodLine self.now line.now }
    {
        let place = self.place();
        match parse_line(self.events, line) {
            None => false,
            Some(line) => match place.after(&line) {
                None => false,
                Some(_) => true,
            },
        }
    }

    /// What may come in place of a line, without its LF, that isn't good here.
    fn wanted_for(&self, line: &[u8]) -> Wanted
        requires { length line.now ≤ 128 }
        ensures { may_want (place_of self.now) result ≡ true }
    {
        match self.place() {
            LinePlace::First => wanted_first(line),
            LinePlace::Between => wanted_between(line),
            LinePlace::Inside { .. } => wanted_inside(self.events, line),
            LinePlace::Ended => Wanted::NoMore,
        }
    }

    /// What may come in place of a line that is too long.
    fn wanted_for_long(&self) -> Wanted
        ensures { may_want (place_of self.now) result ≡ true }
    {
        match self.place() {
            LinePlace::First | LinePlace::Between | LinePlace::Inside { .. } => Wanted::ShortLine,
            LinePlace::Ended => Wanted::NoMore,
        }
    }

    /// What is wanted where the bytes begin. At most 129 bytes are looked at.
    pub(crate) fn wish(&self, bytes: &[u8]) -> Wish
        ensures { IsWish result self.now bytes.now }
    {
        match first_line(bytes) {
            FirstLine::TooLong => Wish::Other(self.wanted_for_long()),
            FirstLine::Open => {
                if self.is_good(bytes) {
                    return Wish::LineFeed;
                }
                Wish::Other(self.wanted_for(bytes))
            }
            FirstLine::Whole(end) => {
                if self.is_good(&bytes[..end]) {
                    return Wish::Nothing;
                }
                Wish::Other(self.wanted_for(&bytes[..end]))
            }
        }
    }
}
