//! Opens the stimulus of a chain and runs both clients over it.
ghost use Rattle.std.specs.Prelude.{◌≡◌, ◌∷◌, [], IsSome, true};
ghost use Rattle.det_io.specs.Count.{Rose};
ghost use Rattle.det_io.specs.Shelf.{AsksPrefix};
ghost use Rattle.det_io.specs.Traffic.{sink_run};
ghost use Rattle.cli_answers.specs.Ends.{can_end};
ghost use Rattle.cli_answers.specs.Outcome.{Meets, known_bytes};
ghost use Rattle.cli_answers.specs.Slots.{KeepsSlots};
ghost use Rattle.shipped_crews.specs.Runs.{IsGoodRun};
ghost use Rattle.cmd_run.specs.record_command.Outcomes.{demo_work};
ghost use Rattle.cmd_run.specs.chain_command.Clients.{chained_by_kinds};

use crate::record_command::stimulus_answer;
use crate::stimulus_visit::StimulusIn;
use cli_answers::Answer;
use det_io::{Discard, Shelf, Sink};
use shipped_crews::{PlannedRun, with_two_crews};
use std::thread::Threads;

/// Chains two clients over the stimulus under a name. The record of the first client is discarded:
/// `record` writes the same one for the first manifest.
pub(crate) fn chain_named_stimulus<S, K, R>(
    first: PlannedRun<'_, R>,
    second: PlannedRun<'_, R>,
    stimulus: &str,
    shelf: &mut S,
    out: &mut K,
) -> Answer
where
    S: Shelf,
    K: Sink,
    R: Threads,
    requires first { IsGoodRun first.run.kind first.run.profile }
    requires second { IsGoodRun second.run.kind second.run.profile }
    ensures meets { Meets
        (chained_by_kinds
        (record { kind = first.entry.run.kind; profile = first.entry.run.profile })
        (record { kind = second.entry.run.kind; profile = second.entry.run.profile })
        (known_bytes (S.sees shelf.old) stimulus.now))
        (IsSome ((S.sees shelf.old).holds stimulus.now))
        (Rose (S.sees shelf.old).faults (S.sees shelf.new).faults)
        (sink_run K.took K.faults out.old out.new) result }
    ensures ends { can_end demo_work result ≡ true }
    ensures asked { AsksPrefix (S.sees shelf.old) (S.sees shelf.new) (stimulus.now ∷ []) }
    ensures earlier { KeepsSlots (S.sees shelf.old) (S.sees shelf.new) }
{
    let slot = match shelf.open_input(stimulus) {
        Ok(slot) => slot,
        Err(failure) => return Answer::from(failure),
    };
    let events = first.run.profile.events.len() as u16;
    let stimulus = StimulusIn { slot, events };
    match with_two_crews(first, second, stimulus, shelf, &mut Discard, out) {
        Ok(chained) => stimulus_answer(chained),
        Err(_) => Answer::OutOfMemory,
    }
}
