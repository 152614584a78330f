//! The loop of a replay: reads an input, runs a cycle, writes its frame.
ghost use Rattle.std.specs.Prelude.{ℕ, List, [], ◌∷◌};
ghost use Rattle.det_io.specs.Traffic.{ShelfTraffic, SinkTraffic};
ghost use Rattle.det_io.specs.Traffic.{shelf_run, sink_run, failure_in};
ghost use Rattle.record_grammar.specs.declared.item.Item.TheVariants as items;
ghost use Rattle.record_reader.specs.Frames.{StandsFor, slot_of};
ghost use Rattle.rerun.specs.replayer.ReplayStart.{IsBegun};
ghost use Rattle.rerun.specs.replayer.ReplayRun.{IsReplayed};

use crate::replayer::record_inputs::next_input;
use det_io::{Sink, Slots, Stopped};
use det_values::{CycleInput, Limited};
use job::{Job, Pool};
use record_grammar::RecordFault;
use record_reader::FrameReader;
use recorder::run_writer::{Counts, Recording};
use std::alloc::Global;

/// Runs a job on a pool over the inputs of a record's runs, and writes the record that they give.
/// The outcomes in the record that is read don't matter. Only its header was read before the call.
///
/// The header and the frames up to Init are written before the first frame is read. Each Run frame
/// that is read then gives a Run frame. Terminate is written once the record was read to its end
/// and is whole.
///
/// `Refused` has the record's fault; the runs of all inputs before it were written. After an error
/// neither the recording nor the reader may be used.
pub fn replay_run<J: Job, P: Pool<J>, S: Slots, K: Sink>(
    recording: &mut Recording<J>,
    pool: &mut P,
    frames: &mut FrameReader,
    shelf: &mut S,
    sink: &mut K,
) -> Result<Counts, Stopped<RecordFault>>
    requires { IsBegun J.meaning recording.old frames.old (S.sees shelf.old) }
    // For the bytes that were read before the call.
    ensures replayed { (read : List ℕ)
        → StandsFor frames.old read (items.Header recording.old.profile ∷ [])
        → IsReplayed J.meaning recording.old.profile read (slot_of frames.old)
        (shelf_run S.sees S.stays shelf.old shelf.new)
        (sink_run K.took K.faults sink.old sink.new) result }
    ensures shelf_traffic { ShelfTraffic (shelf_run S.sees S.stays shelf.old shelf.new)
        (failure_in result) }
    ensures sink_traffic { SinkTraffic (sink_run K.took K.faults sink.old sink.new)
        (failure_in result) }
{
    recording.open(sink)?;
    let mut spare = empty_input(recording.alloc());
    'cycles: while let Some(input) = next_input(frames, shelf, spare)? {
        let run = recording.cycle(pool, input, sink)?;
        spare = recording.take_back(run);
    }
    let counts = recording.close(sink)?;
    Ok(counts)
}

/// An input without samples. It allocates nothing.
pub fn empty_input(alloc: Global) -> CycleInput {
    CycleInput {
        time: None,
        samples: Limited::new(alloc),
    }
}
