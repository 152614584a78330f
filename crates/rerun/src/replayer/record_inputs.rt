//! Reads the inputs out of the Run frames of a record.
ghost use Rattle.std.specs.Prelude.{◌≡◌, ℕ, ◌<◌, List};
ghost use Rattle.det_values.specs.Values.{ProfileValue};
ghost use Rattle.det_values.specs.declared.frames.CycleInput.{CycleInput as Input};
ghost use Rattle.det_io.specs.Shelf.{IsAtEnd};
ghost use Rattle.det_io.specs.Traffic.{ShelfTraffic, shelf_run, failure_in};
ghost use Rattle.record_reader.specs.Frames.{slot_of};
ghost use Rattle.rerun.specs.replayer.NextInput.{HasGiven, ReadsOn, InputIs};

use det_io::{Slots, Stopped};
use det_values::CycleInput;
use record_codec::fill_input;
use record_grammar::RecordFault;
use record_reader::FrameReader;

/// The input of the record's next Run frame, whatever its outcome, in the memory of `spare`. None
/// once the slot was read to its end and the record is whole.
///
/// `Refused` has the record's fault, after the inputs of all runs before it. After a failed read
/// the reader can go on. After `OutOfMemory` it must not be used.
pub fn next_input<S: Slots>(
    frames: &mut FrameReader,
    shelf: &mut S,
    spare: CycleInput,
) -> Result<Option<CycleInput>, Stopped<RecordFault>>
    requires slot { slot_of frames.old < (S.sees shelf.old).slots }
    // The reader has given the header.
    requires begun { (profile : ProfileValue) × (read : List ℕ) × (given : List Input)
        × HasGiven profile frames.old read given }
    ensures input { ReadsOn (S.sees shelf.old) (S.sees shelf.new) frames.old
        (λ profile. InputIs result profile frames.new
        (IsAtEnd (S.sees shelf.new) (slot_of frames.old))) }
    ensures slot { slot_of frames.new ≡ slot_of frames.old }
    ensures traffic { ShelfTraffic (shelf_run S.sees S.stays shelf.old shelf.new)
        (failure_in result) }
{
    let mut input = spare;
    'frames: loop {
        let Some(view) = frames.next(shelf)? else {
            return Ok(None);
        };
        if fill_input(&mut input, view, frames.bytes(view))? {
            return Ok(Some(input));
        }
    }
}
