//! The commands `replay` and `upgrade`: open a record, and rewrite it by a crew.
ghost use Rattle.std.specs.Prelude.{◌≡◌, ◌∷◌, [], true};
ghost use Rattle.det_io.specs.Count.{Rose};
ghost use Rattle.det_io.specs.Shelf.{AsksPrefix};
ghost use Rattle.det_io.specs.Traffic.{shelf_run, sink_run};
ghost use Rattle.record_reader.specs.Frames.{IsOpen};
ghost use Rattle.shipped_crews.specs.Runs.{IsGoodRun};
ghost use Rattle.cli_answers.specs.Ends.{can_end, reruns_records, compares_runs};
ghost use Rattle.cli_answers.specs.Outcome.{Meets, KnowsBytes, known_bytes};
ghost use Rattle.cli_answers.specs.Slots.{KeepsSlots};
ghost use Rattle.cmd_rerun.specs.replay_command.Replay.{replay_outcome};
ghost use Rattle.cmd_rerun.specs.upgrade_command.Upgrade.{upgrade_outcome};
ghost use Rattle.cmd_rerun.specs.rewrite.RewriteVisit.{work_of, rewrite_outcome, rewritten};
ghost use Rattle.cmd_rerun.specs.Rest.{IsRerun};

use crate::rewrite::rewriter::{Rewrite, Rewriter, profile_of_run};
use cli_answers::Answer;
use det_io::{Shelf, Sink, Slots};
use probes::Audience;
use rerun::upgrader::Original;
use run_setup::recorded_run::{RecordedRun, bad_run_answer, open_recorded_run};
use shipped_crews::{ShippedRun, Workers, with_crew};
use std::thread::Threads;

/// Rewrites the rest of a record by a crew, without an audience.
fn rewrite_by_crew<S, K, R>(
    workers: &Workers<'_, R>,
    rewrite: Rewrite,
    run: RecordedRun,
    shelf: &mut S,
    out: &mut K,
) -> Answer
where
    S: Slots,
    K: Sink,
    R: Threads,
    requires good { IsGoodRun run.kind run.profile }
    requires opened { IsOpen run.frames run.profile (S.sees shelf.old) }
    ensures { IsRerun (rewritten rewrite run.kind run.profile) (work_of rewrite) run.profile
        run.frames (shelf_run S.sees S.stays shelf.old shelf.new)
        (sink_run K.took K.faults out.old out.new) result }
{
    let RecordedRun {
        kind,
        profile,
        frames,
    } = run;
    let mut nobody = Audience::new(workers.alloc, Vec::new(workers.alloc));
    let format = profile.format;
    let profile = profile_of_run(rewrite, profile);
    let run = ShippedRun { kind, profile };
    let original = Original { format, frames };
    let visitor = Rewriter { rewrite, original };
    match with_crew(workers, run, visitor, shelf, out, &mut nobody) {
        Ok(answer) => answer,
        Err(_) => Answer::OutOfMemory,
    }
}

/// Runs the job of the record under this name again over its inputs, and writes a record of that
/// run. If no shipped job takes what the header says, nothing is written.
fn rewrite_named_record<S, K, R>(
    workers: &Workers<'_, R>,
    rewrite: Rewrite,
    recorded: &str,
    shelf: &mut S,
    out: &mut K,
) -> Answer
where
    S: Shelf,
    K: Sink,
    R: Threads,
    ensures meets { Meets (rewrite_outcome rewrite (known_bytes (S.sees shelf.old) recorded.now))
        (KnowsBytes (S.sees shelf.old) (recorded.now ∷ []))
        (Rose (S.sees shelf.old).faults (S.sees shelf.new).faults)
        (sink_run K.took K.faults out.old out.new) result }
    ensures ends { can_end (work_of rewrite) result ≡ true }
    ensures asked { AsksPrefix (S.sees shelf.old) (S.sees shelf.new) (recorded.now ∷ []) }
    ensures earlier { KeepsSlots (S.sees shelf.old) (S.sees shelf.new) }
{
    match open_recorded_run(workers.alloc, recorded, shelf) {
        Ok(run) => rewrite_by_crew(workers, rewrite, run, shelf, out),
        Err(end) => bad_run_answer(end),
    }
}

/// Runs the job of the record under this name again over its inputs, and writes the record that
/// they give. The outcomes in the record that is read don't matter. If it has a fault, the runs of
/// all inputs before the fault are written, without Terminate. If no shipped job takes what the
/// header says, nothing is written.
pub fn replay<S, K, R>(
    workers: &Workers<'_, R>,
    recorded: &str,
    shelf: &mut S,
    out: &mut K,
) -> Answer
where
    S: Shelf,
    K: Sink,
    R: Threads,
    ensures meets { Meets (replay_outcome (known_bytes (S.sees shelf.old) recorded.now))
        (KnowsBytes (S.sees shelf.old) (recorded.now ∷ []))
        (Rose (S.sees shelf.old).faults (S.sees shelf.new).faults)
        (sink_run K.took K.faults out.old out.new) result }
    ensures ends { can_end reruns_records result ≡ true }
    ensures asked { AsksPrefix (S.sees shelf.old) (S.sees shelf.new) (recorded.now ∷ []) }
    ensures earlier { KeepsSlots (S.sees shelf.old) (S.sees shelf.new) }
{
    rewrite_named_record(workers, Rewrite::Replay, recorded, shelf, out)
}

/// Runs the job of the record under this name again over its inputs. Writes the record of that run
/// in format 2, up to the first frame that isn't what the inputs give.
///
/// If the record has a fault, the frames before it are written, without Terminate. If no shipped
/// job takes what the header says, nothing is written.
pub fn upgrade<S, K, R>(
    workers: &Workers<'_, R>,
    recorded: &str,
    shelf: &mut S,
    out: &mut K,
) -> Answer
where
    S: Shelf,
    K: Sink,
    R: Threads,
    ensures meets { Meets (upgrade_outcome (known_bytes (S.sees shelf.old) recorded.now))
        (KnowsBytes (S.sees shelf.old) (recorded.now ∷ []))
        (Rose (S.sees shelf.old).faults (S.sees shelf.new).faults)
        (sink_run K.took K.faults out.old out.new) result }
    ensures ends { can_end compares_runs result ≡ true }
    ensures asked { AsksPrefix (S.sees shelf.old) (S.sees shelf.new) (recorded.now ∷ []) }
    ensures earlier { KeepsSlots (S.sees shelf.old) (S.sees shelf.new) }
{
    rewrite_named_record(workers, Rewrite::Upgrade, recorded, shelf, out)
}
