//! The steps of a chain, each for both clients: opening, a cycle, closing.
ghost use Rattle.std.specs.Prelude.{◌≡◌, ◌<◌, ◌+◌, List, [], length, OnOk, IfOk, IfErr};
ghost use Rattle.std.specs.List.{All};
ghost use Rattle.det_values.specs.declared.frames.CycleInput.{CycleInput as Input};
ghost use Rattle.det_values.specs.declared.frames.Frame.TheVariants.{Terminate};
ghost use Rattle.det_io.specs.Traffic.{failure_of};
ghost use Rattle.record_grammar.specs.Spelling.{spelled_frame};
ghost use Rattle.recorder.specs.run_writer.Record.{opening};
ghost use Rattle.recorder.specs.run_writer.Recording.{IsNew, IsRecordingAfter};
ghost use Rattle.cmd_run.specs.chain.ChainEnds.{sink_runs, BothGrew, Counted};
ghost use Rattle.cmd_run.specs.chain.ChainCycle.{AreBothAfter, BothTraffic, CutOff, Linked};
ghost use Rattle.cmd_run.specs.chain.ChainCycle.{first_frame, second_frame};

use crate::chain::ChainCounts;
use crate::chain::output_samples::chained_input;
use det_io::{Failure, Sink};
use det_values::CycleInput;
use job::{Job, Pool};
use recorder::run_writer::Runner;

/// Writes both headers and the frames up to Init.
pub(crate) fn open_chain<A, P, B, Q, K, L>(
    first: &mut Runner<A, P>,
    second: &mut Runner<B, Q>,
    first_sink: &mut K,
    second_sink: &mut L,
) -> Result<(), Failure>
where
    A: Job,
    B: Job,
    K: Sink,
    L: Sink,
    requires first { IsNew A.meaning first.old.recording }
    requires second { IsNew B.meaning second.old.recording }
    ensures first { OnOk result (IsRecordingAfter A.meaning first.new.recording []) }
    ensures second { OnOk result (IsRecordingAfter B.meaning second.new.recording []) }
    ensures grew { OnOk result (BothGrew
        (sink_runs K.took K.faults first_sink.old first_sink.new
        L.took L.faults second_sink.old second_sink.new)
        (opening A.meaning first.old.recording.profile)
        (opening B.meaning second.old.recording.profile)) }
    ensures cut { IfErr result (λ failure. CutOff failure
        (sink_runs K.took K.faults first_sink.old first_sink.new
        L.took L.faults second_sink.old second_sink.new)
        (opening A.meaning first.old.recording.profile)
        (opening B.meaning second.old.recording.profile)) }
    ensures first_profile { OnOk result
        (first.new.recording.profile ≡ first.old.recording.profile) }
    ensures second_profile { OnOk result
        (second.new.recording.profile ≡ second.old.recording.profile) }
    ensures traffic { BothTraffic
        (sink_runs K.took K.faults first_sink.old first_sink.new
        L.took L.faults second_sink.old second_sink.new) (failure_of result) }
{
    first.recording.open(first_sink)?;
    second.recording.open(second_sink)?;
    Ok(())
}

/// Runs the next cycle of both clients and writes their frames. The second client's input is the
/// output of the first one's cycle. Returns the input, so that its memory can be used again.
pub(crate) fn cycle_chain<A, P, B, Q, K, L>(
    first: &mut Runner<A, P>,
    second: &mut Runner<B, Q>,
    input: CycleInput,
    first_sink: &mut K,
    second_sink: &mut L,
) -> Result<CycleInput, Failure>
where
    A: Job,
    P: Pool<A>,
    B: Job,
    Q: Pool<B>,
    K: Sink,
    L: Sink,
    requires stands { (given : List Input) × AreBothAfter A.meaning B.meaning first.old.recording
        second.old.recording given }
    requires few { first.old.recording.engine.cycles < 1000000 }
    requires known { All (λ s. s.event < length first.old.recording.profile.events)
        input.samples }
    ensures linked { OnOk result ((given : List Input)
        → AreBothAfter A.meaning B.meaning first.old.recording second.old.recording given
        → Linked A.meaning B.meaning first.old.recording.profile second.old.recording.profile given
        input first.new.recording second.new.recording
        (sink_runs K.took K.faults first_sink.old first_sink.new
        L.took L.faults second_sink.old second_sink.new)) }
    ensures cut { IfErr result (λ failure. (given : List Input)
        → AreBothAfter A.meaning B.meaning first.old.recording second.old.recording given
        → CutOff failure
        (sink_runs K.took K.faults first_sink.old first_sink.new
        L.took L.faults second_sink.old second_sink.new)
        (first_frame A.meaning B.meaning first.old.recording.profile
        second.old.recording.profile given input)
        (second_frame A.meaning B.meaning first.old.recording.profile
        second.old.recording.profile given input)) }
    ensures cycles { OnOk result (first.new.recording.engine.cycles
        ≡ first.old.recording.engine.cycles + 1) }
    ensures first_profile { OnOk result
        (first.new.recording.profile ≡ first.old.recording.profile) }
    ensures second_profile { OnOk result
        (second.new.recording.profile ≡ second.old.recording.profile) }
    ensures traffic { BothTraffic
        (sink_runs K.took K.faults first_sink.old first_sink.new
        L.took L.faults second_sink.old second_sink.new) (failure_of result) }
{
    let run = first.recording.cycle(&mut first.pool, input, first_sink)?;
    let events = second.recording.events();
    let passed = chained_input(second.recording.alloc(), &run, events)?;
    let followed = second
        .recording
        .cycle(&mut second.pool, passed, second_sink)?;
    let _ = second.recording.take_back(followed);
    Ok(first.recording.take_back(run))
}

/// Ends both runs and writes both Terminate frames.
pub(crate) fn close_chain<A, P, B, Q, K, L>(
    first: &mut Runner<A, P>,
    second: &mut Runner<B, Q>,
    first_sink: &mut K,
    second_sink: &mut L,
) -> Result<ChainCounts, Failure>
where
    A: Job,
    B: Job,
    K: Sink,
    L: Sink,
    ensures counted { IfOk result (λ counts. (given : List Input)
        → AreBothAfter A.meaning B.meaning first.old.recording second.old.recording given
        → Counted A.meaning first.old.recording.profile B.meaning second.old.recording.profile
        counts given) }
    ensures grew { OnOk result (BothGrew
        (sink_runs K.took K.faults first_sink.old first_sink.new
        L.took L.faults second_sink.old second_sink.new)
        (spelled_frame first.old.recording.profile.format Terminate)
        (spelled_frame second.old.recording.profile.format Terminate)) }
    ensures cut { IfErr result (λ failure. CutOff failure
        (sink_runs K.took K.faults first_sink.old first_sink.new
        L.took L.faults second_sink.old second_sink.new)
        (spelled_frame first.old.recording.profile.format Terminate)
        (spelled_frame second.old.recording.profile.format Terminate)) }
    ensures traffic { BothTraffic
        (sink_runs K.took K.faults first_sink.old first_sink.new
        L.took L.faults second_sink.old second_sink.new) (failure_of result) }
{
    let one = first.recording.close(first_sink)?;
    let other = second.recording.close(second_sink)?;
    Ok(ChainCounts {
        cycles: one.cycles,
        refused_first: one.refused,
        refused_second: other.refused,
    })
}
