//! The reader of a stimulus in a slot.
ghost use Rattle.std.specs.Prelude.{◌≡◌};
ghost use Rattle.stimulus.specs.slot_reader.Steps.{stopped_by};

use crate::{StimulusError, StimulusFault, StimulusItem, StimulusParser};
use det_io::{Failure, PIECE, Slots, Stopped};
use det_values::CycleInput;
use std::alloc::Global;

/// Returns the inputs of the stimulus in a slot, which it reads in pieces of 4,096 bytes. It holds
/// one block and one piece.
#[derive(Drop)]
pub struct StimulusReader {
    slot: u32,
    text: StimulusParser,
}

fn stopped(error: StimulusError) -> Stopped<StimulusFault>
    ensures { result ≡ stopped_by error }
{
    match error {
        StimulusError::Bad(fault) => Stopped::Refused(fault),
        StimulusError::OutOfMemory => Stopped::Failed(Failure::OutOfMemory),
    }
}

impl StimulusReader {
    ghost use Rattle.std.specs.Prelude.{ℕ, ◌<◌, ◌≤◌, List, [], ◌++◌};
    ghost use Rattle.det_values.specs.declared.frames.CycleInput.{CycleInput as Input};
    ghost use Rattle.det_io.specs.Shelf.{Reads, IsAtEnd};
    ghost use Rattle.det_io.specs.Traffic.{ShelfTraffic, shelf_run, failure_in};
    ghost use Rattle.stimulus.specs.slot_reader.StandsFor.{StandsFor, InputIs, ReadsIfNeeded};
    ghost use Rattle.stimulus.specs.slot_reader.StandsFor.{slot_of, events_of};
    ghost use Rattle.stimulus.specs.slot_reader.Steps.{room, FedIs, IsHungry, Hungers, GaveAll};
    ghost use Rattle.stimulus.specs.slot_reader.Steps.{PieceIs};
    ghost use Rattle.stimulus.specs.slot_reader.Steps.{Shrinks};

    /// A reader of the bytes that a slot still has, for a profile with this number of events. It
    /// takes no memory, and reads nothing yet.
    pub fn from_slot(alloc: Global, slot: u32, events: u16) -> StimulusReader
        ensures stands { StandsFor result [] [] }
        ensures slot { slot_of result ≡ slot }
        ensures events { events_of result ≡ events }
    {
        StimulusReader {
            slot,
            text: StimulusParser::new(alloc, events),
        }
    }

    /// The input of the next complete block, or None at the end of a slot with a whole stimulus.
    /// `Refused` has the bad line, as soon as it counts as fed. After a failed read the reader is
    /// as before. After `Refused` or `OutOfMemory` it must not be used again.
    pub fn next_input<S: Slots>(
        &mut self,
        shelf: &mut S,
    ) -> Result<Option<CycleInput>, Stopped<StimulusFault>>
        requires { slot_of self.old < (S.sees shelf.old).slots }
        ensures input { (more : List ℕ)
            × Reads (S.sees shelf.old) (S.sees shelf.new) (slot_of self.old) more
            × ((read : List ℕ) (given : List Input) → StandsFor self.old read given
            → ReadsIfNeeded (events_of self.old) read given more
            × InputIs result self.new (IsAtEnd (S.sees shelf.new) (slot_of self.old))
            (read ++ more) given) }
        ensures slot { slot_of self.new ≡ slot_of self.old }
        ensures events { events_of self.new ≡ events_of self.old }
        ensures traffic { ShelfTraffic (shelf_run S.sees S.stays shelf.old shelf.new)
            (failure_in result) }
    {
        'pieces: loop {
            if let Some(input) = self.next_fed_input()? {
                return Ok(Some(input));
            }
            if !self.read_on(shelf)? {
                return Ok(None);
            }
        }
    }

    /// Takes an input that is no longer needed, and reuses its memory for the next one.
    pub fn take_back(&mut self, input: CycleInput)
        ensures { self.new ≡ self.old }
    {
        self.text.take_back(input);
    }

    /// The input of the next complete block of the bytes that were fed.
    fn next_fed_input(&mut self) -> Result<Option<CycleInput>, Stopped<StimulusFault>>
        ensures input { (read : List ℕ) (given : List Input) → StandsFor self.old read given
            → FedIs result self.new read given }
        ensures hungers { Hungers result self.new }
        ensures room { room self.new ≤ room self.old }
        ensures slot { slot_of self.new ≡ slot_of self.old }
        ensures events { events_of self.new ≡ events_of self.old }
    {
        'items: loop {
            let item = match self.text.next_cycle() {
                Ok(item) => item,
                Err(error) => return Err(stopped(error)),
            };
            match item {
                None => return Ok(None),
                Some(item) => match item {
                    StimulusItem::Terminate => {}
                    StimulusItem::Cycle(input) => return Ok(Some(input)),
                },
            }
        }
    }

    /// Reads a piece. False at the end of a slot with a whole stimulus.
    fn read_on<S: Slots>(&mut self, shelf: &mut S) -> Result<bool, Stopped<StimulusFault>>
        requires slot { slot_of self.old < (S.sees shelf.old).slots }
        requires hungry { IsHungry self.old }
        ensures piece { (more : List ℕ)
            × Reads (S.sees shelf.old) (S.sees shelf.new) (slot_of self.old) more
            × ((read : List ℕ) (given : List Input) → GaveAll self.old read given
            → PieceIs result self.new (IsAtEnd (S.sees shelf.new) (slot_of self.old))
            (read ++ more) given) }
        ensures shrinks { Shrinks result (room self.old) (room self.new) }
        ensures slot { slot_of self.new ≡ slot_of self.old }
        ensures events { events_of self.new ≡ events_of self.old }
        ensures traffic { ShelfTraffic (shelf_run S.sees S.stays shelf.old shelf.new)
            (failure_in result) }
    {
        let mut piece = [0; PIECE];
        let n = shelf.read(self.slot, &mut piece)?;
        if n == 0 {
            return match self.text.finish() {
                Ok(()) => Ok(false),
                Err(fault) => Err(Stopped::Refused(fault)),
            };
        }
        self.text.feed(&piece[..n])?;
        Ok(true)
    }
}
