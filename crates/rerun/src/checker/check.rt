//! The loop of a check: reads a frame and compares it with the one that the run gives.
ghost use Rattle.std.specs.Prelude.{◌≡◌, ℕ, List, [], ◌∷◌};
ghost use Rattle.det_io.specs.Traffic.{ShelfTraffic, shelf_run, failure_in};
ghost use Rattle.record_grammar.specs.declared.item.Item.TheVariants as items;
ghost use Rattle.record_reader.specs.Frames.{StandsFor, slot_of};
ghost use Rattle.probes.specs.Shows.{seen};
ghost use Rattle.rerun.specs.replayer.ReplayStart.{IsBegun};
ghost use Rattle.rerun.specs.checker.CheckRun.{IsChecked};

use crate::checker::frame_checker::FrameChecker;
use copies::CheckVerdict;
use det_io::{Slots, Stopped};
use job::{Job, Pool};
use probes::{Audience, Probe};
use record_grammar::RecordFault;
use record_reader::FrameReader;
use recorder::run_writer::Recording;

/// Runs a job on a pool over the inputs of a record's runs. Compares each frame of the record with
/// the one that they give. Each Run frame is shown to the audience before the check goes on or
/// ends. At the first difference the check ends and reads no further. Only the header was read
/// before the call.
///
/// `Refused` has the record's fault if there is no difference before it. After `OutOfMemory`
/// neither the recording nor the reader may be used.
pub fn check_run<J: Job, P: Pool<J>, S: Slots>(
    recording: &mut Recording<J>,
    pool: &mut P,
    frames: &mut FrameReader,
    shelf: &mut S,
    audience: &mut Audience,
) -> Result<CheckVerdict, Stopped<RecordFault>>
    requires { IsBegun J.meaning recording.old frames.old (S.sees shelf.old) }
    // For the bytes that were read before the call.
    ensures checked { (read : List ℕ)
        → StandsFor frames.old read (items.Header recording.old.profile ∷ [])
        → IsChecked J.meaning recording.old.profile
        (seen (λ b. life (b.vtable, b.value)) audience.old)
        (seen (λ b. life (b.vtable, b.value)) audience.new)
        read (slot_of frames.old) (shelf_run S.sees S.stays shelf.old shelf.new) result }
    ensures traffic { ShelfTraffic (shelf_run S.sees S.stays shelf.old shelf.new)
        (failure_in result) }
{
    let mut checker = FrameChecker::new(recording.alloc());
    'reading: loop {
        let Some(view) = frames.next(shelf)? else {
            return Ok(CheckVerdict::Genuine {
                cycles: checker.cycles,
            });
        };
        let bytes = frames.bytes(view);
        if let Some(at) = checker.take(recording, pool, view, bytes, audience)? {
            return Ok(CheckVerdict::Departs(at));
        }
    }
}
