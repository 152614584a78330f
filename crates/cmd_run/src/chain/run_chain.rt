//! The loop of a chain: reads an input, runs a cycle of both clients, writes both frames.
ghost use Rattle.std.specs.Prelude.{◌≡◌, ◌⊎◌, ◌≤◌, Some};
ghost use Rattle.det_io.specs.Count.{Rose};
ghost use Rattle.det_io.specs.Traffic.{ShelfTraffic, shelf_run, failure_in};
ghost use Rattle.det_io.specs.declared.failure.Failure.TheVariants.{Write};
ghost use Rattle.stimulus.specs.slot_reader.StandsFor.{slot_of};
ghost use Rattle.cmd_run.specs.chain.ChainStart.{IsBegun};
ghost use Rattle.cmd_run.specs.chain.ChainEnds.{sink_runs, IsChained};

use crate::chain::ChainCounts;
use crate::chain::both_clients::{close_chain, cycle_chain, open_chain};
use det_io::{Sink, Slots, Stopped};
use job::{Job, Pool};
use recorder::run_writer::Runner;
use stimulus::StimulusFault;
use stimulus::slot_reader::StimulusReader;

/// Runs two clients side by side and writes the record of each: the first over the stimulus that is
/// left in a slot, the second over the outputs of the first. An output gives samples to the second
/// client's cycle of the same number. As every sample, the second client sees them in its next
/// cycle at the earliest.
///
/// Both headers and the frames up to Init are written before the stimulus is read. Each complete
/// block then gives the first client's frame and the second's. `Refused` has the bad line; both
/// records of all blocks before it were written. After an error neither runner may be used.
pub fn chain_run<A, P, B, Q, S, K, L>(
    first: &mut Runner<A, P>,
    second: &mut Runner<B, Q>,
    stimulus: &mut StimulusReader,
    shelf: &mut S,
    first_sink: &mut K,
    second_sink: &mut L,
) -> Result<ChainCounts, Stopped<StimulusFault>>
where
    A: Job,
    P: Pool<A>,
    B: Job,
    Q: Pool<B>,
    S: Slots,
    K: Sink,
    L: Sink,
    requires { IsBegun A.meaning first.old.recording B.meaning second.old.recording stimulus.old
        (S.sees shelf.old) }
    ensures chained { IsChained A.meaning first.old.recording.profile
        B.meaning second.old.recording.profile (slot_of stimulus.old)
        (shelf_run S.sees S.stays shelf.old shelf.new)
        (sink_runs K.took K.faults first_sink.old first_sink.new
        L.took L.faults second_sink.old second_sink.new) result }
    ensures shelf_traffic { ShelfTraffic (shelf_run S.sees S.stays shelf.old shelf.new)
        (failure_in result) }
    ensures write_fault { failure_in result ≡ Some Write
        → Rose (K.faults first_sink.old) (K.faults first_sink.new)
        ⊎ Rose (L.faults second_sink.old) (L.faults second_sink.new) }
    ensures first_counted { K.faults first_sink.old ≤ K.faults first_sink.new }
    ensures second_counted { L.faults second_sink.old ≤ L.faults second_sink.new }
{
    open_chain(first, second, first_sink, second_sink)?;
    'cycles: while let Some(input) = stimulus.next_input(shelf)? {
        let spare = cycle_chain(first, second, input, first_sink, second_sink)?;
        stimulus.take_back(spare);
    }
    let counts = close_chain(first, second, first_sink, second_sink)?;
    Ok(counts)
}
