//! Hints on stimuli.
ghost use Rattle.std.specs.Prelude.{◌≡◌, true, IfSome, IsSome};
ghost use Rattle.stimulus.specs.StandsFor.{IsSettled};
ghost use Rattle.hints_on_files.specs.Kinds.{is_of_stimulus};

use crate::hint::Hint;
use det_io::{PIECE, Shelf};
use std::alloc::Global;
use stimulus::{StimulusError, StimulusParser};

/// How many pieces of 4,096 bytes are searched for the bad line. They are 1,048,576 bytes.
const PIECES: u32 = 256;

/// Reads all blocks that were fed, up to the bad line. None if memory runs out.
fn read_blocks(reader: &mut StimulusParser) -> Option<()>
    ensures { IsSome result → IsSettled reader.new }
{
    for _ in 0..=PIECES * 4096 {
        match reader.next_cycle() {
            Ok(Some(_)) => (),
            Ok(None) => return Some(()),
            Err(StimulusError::Bad(_)) => return Some(()),
            Err(StimulusError::OutOfMemory) => return None,
        }
    }
    None
}

/// What may come in place of the bad line, once the whole text was fed. A last line without its
/// line feed is tried with one.
fn end_hint(reader: &mut StimulusParser) -> Option<Hint>
    ensures { IfSome result (λ hint. is_of_stimulus hint ≡ true) }
{
    read_blocks(reader)?;
    if reader.finish().is_ok() {
        return None;
    }
    reader.feed(b"\n").ok()?;
    read_blocks(reader)?;
    match reader.wanted() {
        Some(wanted) => Some(Hint::Stimulus(wanted)),
        None => Some(Hint::NoLineFeed),
    }
}

/// What may come in place of the bad line of the stimulus under a name, if that line is among the
/// first 1,048,576 bytes. If `is_limited` is set, a stimulus has no more.
pub fn stimulus_hint<S: Shelf>(
    alloc: Global,
    name: &str,
    events: u16,
    is_limited: bool,
    shelf: &mut S,
) -> Option<Hint>
    ensures { IfSome result (λ hint. is_of_stimulus hint ≡ true) }
{
    let slot = shelf.open_input(name).ok()?;
    let mut reader = StimulusParser::new(alloc, events);
    let mut piece = [0; PIECE];
    for number in 0..=PIECES {
        let n = shelf.read(slot, &mut piece).ok()?;
        if n == 0 {
            return end_hint(&mut reader);
        }
        if number < PIECES {
            reader.feed(&piece[..n]).ok()?;
        }
    }
    if is_limited {
        return Some(Hint::LongStimulus);
    }
    read_blocks(&mut reader)?;
    Some(Hint::Stimulus(reader.wanted()?))
}
