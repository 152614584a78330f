//! Opens the stimulus of a record and runs a shipped job over it.
ghost use Rattle.std.specs.Prelude.{◌≡◌, ◌∷◌, [], IsSome, true};
ghost use Rattle.det_io.specs.Count.{Rose};
ghost use Rattle.det_io.specs.Shelf.{AsksPrefix};
ghost use Rattle.det_io.specs.Traffic.{sink_run};
ghost use Rattle.cli_answers.specs.Ends.{can_end};
ghost use Rattle.cli_answers.specs.Outcome.{Meets, known_bytes};
ghost use Rattle.cli_answers.specs.Slots.{KeepsSlots};
ghost use Rattle.shipped_crews.specs.Runs.{IsGoodRun};
ghost use Rattle.cmd_run.specs.record_command.Outcomes.{demo_work, recorded_by_kind};
ghost use Rattle.cmd_run.specs.record_command.Outcomes.{stimulus_answer};

use crate::stimulus_visit::StimulusIn;
use cli_answers::Answer;
use det_io::{Shelf, Sink, Stopped};
use probes::Audience;
use shipped_crews::{ShippedRun, Workers, with_crew};
use std::thread::Threads;
use stimulus::StimulusFault;

/// The answer of a command for the result of a recording or of a chain.
pub(crate) fn stimulus_answer<C: Drop>(counts: Result<C, Stopped<StimulusFault>>) -> Answer
    ensures is { result ≡ stimulus_answer counts }
    ensures ends { can_end demo_work result ≡ true }
{
    match counts {
        Ok(_) => Answer::Done,
        Err(Stopped::Refused(fault)) => Answer::BadStimulus { line: fault.line },
        Err(Stopped::Failed(failure)) => Answer::from(failure),
    }
}

/// Records the stimulus under a name, without an audience.
pub(crate) fn record_named_stimulus<S, K, R>(
    workers: &Workers<'_, R>,
    run: ShippedRun,
    stimulus: &str,
    shelf: &mut S,
    out: &mut K,
) -> Answer
where
    S: Shelf,
    K: Sink,
    R: Threads,
    requires good { IsGoodRun run.kind run.profile }
    ensures meets { Meets
        (recorded_by_kind run.kind run.profile (known_bytes (S.sees shelf.old) stimulus.now))
        (IsSome ((S.sees shelf.old).holds stimulus.now))
        (Rose (S.sees shelf.old).faults (S.sees shelf.new).faults)
        (sink_run K.took K.faults out.old out.new) result }
    ensures ends { can_end demo_work result ≡ true }
    ensures asked { AsksPrefix (S.sees shelf.old) (S.sees shelf.new) (stimulus.now ∷ []) }
    ensures earlier { KeepsSlots (S.sees shelf.old) (S.sees shelf.new) }
{
    let slot = match shelf.open_input(stimulus) {
        Ok(slot) => slot,
        Err(failure) => return Answer::from(failure),
    };
    let events = run.profile.events.len() as u16;
    let stimulus = StimulusIn { slot, events };
    let mut nobody = Audience::new(workers.alloc, Vec::new(workers.alloc));
    match with_crew(workers, run, stimulus, shelf, out, &mut nobody) {
        Ok(recorded) => stimulus_answer(recorded),
        Err(_) => Answer::OutOfMemory,
    }
}
