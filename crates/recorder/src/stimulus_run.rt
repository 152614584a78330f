//! The loop that records a stimulus: reads an input, runs a cycle, writes its frame, shows it. The
//! writer of single frames is `run_writer`, which other loops use too.
ghost use Rattle.det_io.specs.Traffic.{ShelfTraffic, SinkTraffic};
ghost use Rattle.det_io.specs.Traffic.{shelf_run, sink_run, failure_in};
ghost use Rattle.probes.specs.Shows.{seen};
ghost use Rattle.stimulus.specs.slot_reader.StandsFor.{slot_of};
ghost use Rattle.recorder.specs.RunStart.{IsBegun};
ghost use Rattle.recorder.specs.RecordRun.{IsRecorded};

use crate::run_writer::{Counts, Recording};
use det_io::{Sink, Slots, Stopped};
use job::{Job, Pool};
use probes::{Audience, Probe};
use stimulus::StimulusFault;
use stimulus::slot_reader::StimulusReader;

/// Runs a job on a pool over the stimulus that is left in a slot, and writes the record of the run.
///
/// The header and the frames up to Init are written before the stimulus is read. Each complete
/// block then gives a Run frame. After a frame is written, its run is shown to the audience.
/// Terminate is written once the text was read to its end and is good. More is read only once no
/// whole block is left of what was read, so all whole blocks are recorded before a read can fail.
///
/// `Refused` has the bad line; the record of all blocks before it was written. After an error
/// neither the recording nor the reader may be used.
pub fn record_run<J: Job, P: Pool<J>, S: Slots, K: Sink>(
    recording: &mut Recording<J>,
    pool: &mut P,
    stimulus: &mut StimulusReader,
    shelf: &mut S,
    sink: &mut K,
    audience: &mut Audience,
) -> Result<Counts, Stopped<StimulusFault>>
    requires { IsBegun J.meaning recording.old stimulus.old (S.sees shelf.old) }
    ensures recorded { IsRecorded J.meaning recording.old.profile (slot_of stimulus.old)
        (shelf_run S.sees S.stays shelf.old shelf.new) (sink_run K.took K.faults sink.old sink.new)
        (seen (λ b. (⟦<dyn Probe as Probe>⟧ b.vtable).life b.value) audience.old)
        (seen (λ b. (⟦<dyn Probe as Probe>⟧ b.vtable).life b.value) audience.new) result }
    ensures shelf_traffic { ShelfTraffic (shelf_run S.sees S.stays shelf.old shelf.new)
        (failure_in result) }
    ensures sink_traffic { SinkTraffic (sink_run K.took K.faults sink.old sink.new)
        (failure_in result) }
{
    recording.open(sink)?;
    'cycles: while let Some(input) = stimulus.next_input(shelf)? {
        let run = recording.cycle(pool, input, sink)?;
        audience.show(recording.alloc(), &run)?;
        let input = recording.take_back(run);
        stimulus.take_back(input);
    }
    let counts = recording.close(sink)?;
    Ok(counts)
}
