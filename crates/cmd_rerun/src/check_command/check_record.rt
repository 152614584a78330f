//! The command `check`: opens the record, checks it by a crew, and prints the verdict.
ghost use Rattle.std.specs.Prelude.{◌≡◌, ◌≢◌, ℕ, List, ◌∷◌, [], ◌++◌, true, Some};
ghost use Rattle.det_io.specs.Count.{Rose};
ghost use Rattle.det_io.specs.Shelf.{AsksPrefix};
ghost use Rattle.det_io.specs.Traffic.{shelf_run, sink_run};
ghost use Rattle.record_grammar.specs.declared.item.Item.TheVariants as items;
ghost use Rattle.record_reader.specs.Frames.{IsOpen, StandsFor, slot_of};
ghost use Rattle.probes.specs.Shows.{seen};
ghost use Rattle.shipped_crews.specs.Runs.{IsGoodRun};
ghost use Rattle.cli_answers.specs.Ends.{can_end, compares_runs};
ghost use Rattle.cli_answers.specs.Outcome.{Meets, KnowsBytes, known_bytes};
ghost use Rattle.cli_answers.specs.Slots.{KeepsSlots};
ghost use Rattle.cmd_rerun.specs.check_command.Check.{check_outcome, SawFirst};
ghost use Rattle.cmd_rerun.specs.check_command.CheckVisit.{checked};
ghost use Rattle.cmd_rerun.specs.check_command.Check.{runs_checked};
ghost use Rattle.cmd_rerun.specs.check_command.CheckVisit.{runs_by_kind};
ghost use Rattle.cmd_rerun.specs.Rest.{IsRerun};

use crate::check_command::check_lines::print_verdict;
use crate::check_command::check_visit::Check;
use cli_answers::Answer;
use det_io::{Shelf, Sink, Slots};
use probes::{Audience, Probe};
use run_setup::recorded_run::{RecordedRun, bad_run_answer, open_recorded_run};
use shipped_crews::{ShippedRun, Workers, with_crew};
use std::thread::Threads;

/// Checks the rest of a record by a crew, and prints the verdict and the reports.
fn check_by_crew<S, K, R>(
    workers: &Workers<'_, R>,
    run: RecordedRun,
    shelf: &mut S,
    out: &mut K,
    audience: &mut Audience,
) -> Answer
where
    S: Slots,
    K: Sink,
    R: Threads,
    requires good { IsGoodRun run.kind run.profile }
    requires opened { IsOpen run.frames run.profile (S.sees shelf.old) }
    ensures rerun { IsRerun
        (checked run.kind run.profile (seen (λ b. life (b.vtable, b.value)) audience.old))
        compares_runs run.profile run.frames (shelf_run S.sees S.stays shelf.old shelf.new)
        (sink_run K.took K.faults out.old out.new) result }
    ensures saw { (read rest : List ℕ) → StandsFor run.frames read (items.Header run.profile ∷ [])
        → result ≢ Answer.OutOfMemory → (S.sees shelf.old).left (slot_of run.frames) ≡ Some rest
        → SawFirst (seen (λ b. life (b.vtable, b.value)) audience.old)
        (seen (λ b. life (b.vtable, b.value)) audience.new)
        (runs_by_kind run.kind run.profile (read ++ rest)) }
    ensures gone { result ≡ Answer.Done
        → (seen (λ b. life (b.vtable, b.value)) audience.new).seeing ≡ [] }
    ensures gone_differing { result ≡ Answer.Differs
        → (seen (λ b. life (b.vtable, b.value)) audience.new).seeing ≡ [] }
{
    let RecordedRun {
        kind,
        profile,
        frames,
    } = run;
    let run = ShippedRun { kind, profile };
    let visitor = Check { frames };
    let checked = match with_crew(workers, run, visitor, shelf, out, audience) {
        Ok(checked) => checked,
        Err(_) => return Answer::OutOfMemory,
    };
    let verdict = match checked {
        Ok(verdict) => verdict,
        Err(stop) => return Answer::from(stop),
    };
    let Ok(()) = audience.finish(workers.alloc) else {
        return Answer::OutOfMemory;
    };
    print_verdict(workers.alloc, verdict, audience.reports(), out)
}

/// Runs the job of the record under this name again over its inputs, and shows its runs to the
/// audience. After the last frame that was compared it prints whether the record is what its inputs
/// give, or the first place where it isn't. Then it prints the reports of the audience.
///
/// If the record has a fault and departs nowhere before it, nothing is printed. If no shipped job
/// takes what the header says, the audience isn't shown anything either.
pub fn check<S, K, R>(
    workers: &Workers<'_, R>,
    recorded: &str,
    shelf: &mut S,
    out: &mut K,
    audience: &mut Audience,
) -> Answer
where
    S: Shelf,
    K: Sink,
    R: Threads,
    ensures meets { Meets (check_outcome (seen (λ b. life (b.vtable, b.value)) audience.old)
        (known_bytes (S.sees shelf.old) recorded.now)) (KnowsBytes (S.sees shelf.old) (recorded.now
        ∷ []))
        (Rose (S.sees shelf.old).faults (S.sees shelf.new).faults)
        (sink_run K.took K.faults out.old out.new) result }
    ensures ends { can_end compares_runs result ≡ true }
    ensures asked { AsksPrefix (S.sees shelf.old) (S.sees shelf.new) (recorded.now ∷ []) }
    ensures earlier { KeepsSlots (S.sees shelf.old) (S.sees shelf.new) }
    // At every answer but `OutOfMemory` the audience has seen the first of the runs checked.
    ensures saw { result ≢ Answer.OutOfMemory → KnowsBytes (S.sees shelf.old) (recorded.now ∷ [])
        → SawFirst (seen (λ b. life (b.vtable, b.value)) audience.old)
        (seen (λ b. life (b.vtable, b.value)) audience.new)
        (runs_checked (known_bytes (S.sees shelf.old) recorded.now)) }
    ensures gone { result ≡ Answer.Done
        → (seen (λ b. life (b.vtable, b.value)) audience.new).seeing ≡ [] }
    ensures gone_differing { result ≡ Answer.Differs
        → (seen (λ b. life (b.vtable, b.value)) audience.new).seeing ≡ [] }
{
    match open_recorded_run(workers.alloc, recorded, shelf) {
        Ok(run) => check_by_crew(workers, run, shelf, out, audience),
        Err(end) => bad_run_answer(end),
    }
}
