//! A stimulus that is fed in pieces. The reader of a slot is apart from it, so a text in memory can
//! be read too.
ghost use Rattle.std.specs.Prelude.{◌≡◌, ◌≤◌, ◌<◌, ◌+◌, ◌*◌, drop, length, true};
ghost use Rattle.std.specs.Option.{ForSome};
ghost use Rattle.std.specs.Vec.{vec_len};
ghost use Rattle.stimulus.specs.States.{most_lines, limit_of};

use crate::first_line::{FirstLine, first_line};
use crate::parse_line::{Line, parse_line};
use crate::state::{AfterLine, State, take_line};
use crate::stimulus_item::{StimulusError, StimulusFault, StimulusItem};
use crate::wanted::Wanted;
use det_values::CycleInput;
use std::alloc::{AllocError, Global};
use std::mem;

/// Returns the blocks of a stimulus whose bytes are fed in pieces of any length.
#[derive(Drop)]
pub struct StimulusParser {
    alloc: Global,
    events: u16,
    /// Bytes that were fed. The first `read` of them were read.
    pending: Vec<u8>,
    read: usize,
    /// The number of good lines that were read.
    lines: u64,
    state: State,
    fault: Option<StimulusFault>,
    /// Nothing was fed since `next_cycle` returned None or a bad line.
    settled: bool,
    ghost in_range: { read ≤ vec_len pending },
    ghost few: { lines ≤ most_lines state },
    ghost countable: { most_lines state ≤ limit_of state },
    ghost stuck: { ForSome fault (λ line. settled ≡ true) },
}

/// The result of looking at one line.
enum Progress {
    Item(StimulusItem),
    Line,
    Open,
}

impl StimulusParser {
    ghost use Rattle.std.specs.Prelude.{ℕ, ◌-◌, List, [], ◌++◌, IsTrue, ◌↔◌, OnOk, OnErr, IsSome};
    ghost use Rattle.stimulus.specs.declared.stimulus_item.StimulusItem.{StimulusItem};
    ghost use Rattle.stimulus.specs.StandsFor.{StandsFor, NextIs, FinishIs, IsSettled, Settles};
    ghost use Rattle.stimulus.specs.StandsFor.{Falls, waiting, room, left};
    ghost use Rattle.stimulus.specs.Steps.{LineIs, Shrinks, OpenSettles, TookIs, BadIs, IsPastEnd};
    ghost use Rattle.stimulus.specs.Steps.{IsLast};

    /// A reader for a profile with this number of events. It takes no memory.
    pub fn new(alloc: Global, events: u16) -> StimulusParser
        ensures stands { StandsFor result [] [] }
        ensures events { result.events ≡ events }
    {
        StimulusParser {
            alloc,
            events,
            pending: Vec::new(alloc),
            read: 0,
            lines: 0,
            state: State::First,
            fault: None,
            settled: false,
        }
    }

    /// Takes the next bytes of the text. On `AllocError` no byte is taken, and the reader goes on
    /// as before. Bytes after a bad line that was returned are dropped.
    pub fn feed(&mut self, piece: &[u8]) -> Result<(), AllocError>
        ensures events { self.new.events ≡ self.old.events }
        ensures ok { OnOk result ((bytes : List ℕ) (given : List StimulusItem)
            → StandsFor self.old bytes given → StandsFor self.new (bytes ++ piece.now) given) }
        ensures err { OnErr result ((bytes : List ℕ) (given : List StimulusItem)
            → StandsFor self.old bytes given → StandsFor self.new bytes given) }
        ensures room { OnOk result (room self.new ≡ room self.old - length piece.now) }
        ensures settled { OnErr result (IsSettled self.old → IsSettled self.new) }
        ensures same_room { OnErr result (room self.new ≡ room self.old) }
        ensures same_waiting { OnErr result (waiting self.new ≡ waiting self.old) }
    {
        if let Some(_) = self.fault {
            return Ok(());
        }
        let read = self.read;
        self.read = drop_read(&mut self.pending, read);
        self.pending.extend_from_slice(piece)?;
        self.settled = false;
        Ok(())
    }

    /// The next complete block, or `Terminate`. None if more bytes are needed. Once a bad line was
    /// returned, every later call returns it again. After `OutOfMemory` the reader is as before.
    pub fn next_cycle(&mut self) -> Result<Option<StimulusItem>, StimulusError>
        ensures events { self.new.events ≡ self.old.events }
        ensures settles { Settles result self.new }
        ensures falls { Falls result self.old self.new }
        ensures room { room self.new ≤ room self.old }
        ensures next { (bytes : List ℕ) (given : List StimulusItem) → StandsFor self.old bytes given
            → NextIs result self.new bytes given }
    {
        'each_line: loop {
            match self.read_line() {
                Ok(Progress::Line) => (),
                Ok(Progress::Item(item)) => return Ok(Some(item)),
                Ok(Progress::Open) => return Ok(None),
                Err(error) => return Err(error),
            }
        }
    }

    /// Takes an input that is no longer needed, and reuses its memory for the next one.
    pub fn take_back(&mut self, input: CycleInput)
        ensures { self.new ≡ self.old }
    {
        let state = mem::replace(&mut self.state, State::Ended);
        self.state = state.with_memory_of(input.samples);
    }

    /// Whether the text that was fed is a whole stimulus, if no more bytes come. If it isn't, the
    /// fault is at the next line, or at the bad line that was found.
    pub fn finish(&self) -> Result<(), StimulusFault>
        requires { IsSettled self.now }
        ensures { (bytes : List ℕ) (given : List StimulusItem) → StandsFor self.now bytes given
            → FinishIs result self.now.events bytes }
    {
        if let Some(fault) = self.fault {
            return Err(fault);
        }
        if self.is_at_end() {
            return Ok(());
        }
        Err(self.next_fault())
    }

    /// What may come in place of the bad line. None until that line was returned.
    pub fn wanted(&self) -> Option<Wanted>
        ensures { IsSome result ↔ IsSome self.now.fault }
    {
        match self.fault {
            Some(_) => {
                let bytes = rest_of(&self.pending, self.read);
                Some(Wanted::after(&self.state, self.events, bytes))
            }
            None => None,
        }
    }

    /// Returns an item that is due, or looks at the next line.
    fn read_line(&mut self) -> Result<Progress, StimulusError>
        ensures events { self.new.events ≡ self.old.events }
        ensures settles { OpenSettles result self.new }
        ensures shrinks { Shrinks result self.old self.new }
        ensures room { room self.new ≤ room self.old }
        ensures line { (bytes : List ℕ) (given : List StimulusItem) → StandsFor self.old bytes given
            → LineIs result self.new bytes given }
    {
        if let Some(fault) = self.fault {
            return Err(StimulusError::Bad(fault));
        }
        if self.is_last() {
            self.state = State::Ended;
            return Ok(Progress::Item(StimulusItem::Terminate));
        }
        let bytes = rest_of(&self.pending, self.read);
        match first_line(bytes) {
            FirstLine::TooLong => Err(self.bad_line()),
            FirstLine::Open => {
                if self.is_past_end() {
                    return Err(self.bad_line());
                }
                self.settled = true;
                Ok(Progress::Open)
            }
            FirstLine::Whole(end) => match parse_line(self.events, &bytes[..end]) {
                None => Err(self.bad_line()),
                Some(line) => self.take(line, end + 1),
            },
        }
    }

    /// Takes a line that is spelled well, of `len` bytes with its LF. It is bad if it may not come
    /// here.
    fn take(&mut self, line: Line, len: usize) -> Result<Progress, StimulusError>
        requires some { 0 < len }
        requires within { self.old.read + len ≤ vec_len self.old.pending }
        ensures taken { TookIs result line len self.old self.new }
    {
        let state = mem::replace(&mut self.state, State::Ended);
        match take_line(self.alloc, state, line) {
            AfterLine::Line(state) => {
                self.state = state;
                self.read += len;
                self.lines += 1;
                Ok(Progress::Line)
            }
            AfterLine::Item(item, state) => {
                self.state = state;
                self.read += len;
                self.lines += 1;
                Ok(Progress::Item(item))
            }
            AfterLine::Bad(state) => {
                self.state = state;
                Err(self.bad_line())
            }
            AfterLine::OutOfMemory(state) => {
                self.state = state;
                Err(StimulusError::OutOfMemory)
            }
        }
    }

    /// The fault of the next line, if it is bad.
    fn next_fault(&self) -> StimulusFault
        ensures { result.line ≡ self.now.lines + 1 }
    {
        StimulusFault {
            line: self.lines + 1,
        }
    }

    /// Records that the next line is bad.
    fn bad_line(&mut self) -> StimulusError
        ensures { BadIs result self.old self.new }
    {
        let fault = self.next_fault();
        self.fault = Some(fault);
        self.settled = true;
        StimulusError::Bad(fault)
    }

    /// Whether `Terminate` is to be returned next.
    fn is_last(&self) -> bool
        ensures { IsTrue result ↔ IsLast self.now.state }
    {
        matches!(self.state, State::Last)
    }

    /// Whether `Terminate` was returned, and no byte is left.
    fn is_at_end(&self) -> bool
        ensures { IsTrue result ↔ ((self.now.state ≡ State.Ended) × (length (left self.now) ≡ 0)) }
    {
        match self.state {
            State::Ended => self.read == self.pending.len(),
            _ => false,
        }
    }

    /// Whether bytes are left after the line `terminate`.
    fn is_past_end(&self) -> bool
        ensures { IsTrue result ↔ IsPastEnd self.now.state (left self.now) }
    {
        match self.state {
            State::Ended => self.read < self.pending.len(),
            _ => false,
        }
    }
}

fn rest_of(bytes: &[u8], read: usize) -> &[u8]
    requires { read ≤ length bytes.now }
    ensures { result.now ≡ drop read bytes.now }
{
    bytes.split_at(read).1
}

/// Removes the bytes that were read, once they are at least as many as the others. So no call moves
/// more bytes than it removes, and all moves together are linear. Returns how many of the remaining
/// bytes were read.
fn drop_read(bytes: &mut Vec<u8>, read: usize) -> usize
    requires { read ≤ vec_len bytes.old }
    ensures within { result ≤ vec_len bytes.new }
    ensures rest { drop result bytes.new.items ≡ drop read bytes.old.items }
{
    let left = bytes.len() - read;
    if read < left {
        return read;
    }
    bytes.copy_within(read.., 0);
    bytes.truncate(left);
    0
}
