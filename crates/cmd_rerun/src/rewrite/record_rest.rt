//! Replays or upgrades the rest of a record, and gives the answer of the command.
ghost use Rattle.std.specs.Prelude.{◌≡◌, true};
ghost use Rattle.det_io.specs.Traffic.{shelf_run, sink_run};
ghost use Rattle.rerun.specs.replayer.ReplayStart.{IsBegun as CanReplay};
ghost use Rattle.rerun.specs.upgrader.UpgradeStart.{IsBegun as CanUpgrade, header_of};
ghost use Rattle.cli_answers.specs.Ends.{can_end, reruns_records, compares_runs};
ghost use Rattle.cmd_rerun.specs.declared.rewrite.rewriter.Rewrite.TheVariants as rewrites;
ghost use Rattle.cmd_rerun.specs.replay_command.Replay.{replay_answer};
ghost use Rattle.cmd_rerun.specs.upgrade_command.Upgrade.{upgrade_answer};
ghost use Rattle.cmd_rerun.specs.rewrite.RewriteVisit.{outcome_with, work_of};
ghost use Rattle.cmd_rerun.specs.Rest.{IsRerun};

use cli_answers::Answer;
use copies::CheckVerdict;
use det_io::{Sink, Slots, Stopped};
use job::{Job, Pool};
use record_grammar::RecordFault;
use record_reader::FrameReader;
use recorder::run_writer::{Counts, Recording};
use rerun::replayer::replay_run;
use rerun::upgrader::{Original, upgrade_run};

/// The answer of the command for the result of a replay.
fn replay_answer(replayed: Result<Counts, Stopped<RecordFault>>) -> Answer
    ensures is { result ≡ replay_answer replayed }
    ensures ends { can_end reruns_records result ≡ true }
{
    match replayed {
        Ok(_) => Answer::Done,
        Err(stop) => Answer::from(stop),
    }
}

/// The answer of the command for the result of an upgrade.
fn upgrade_answer(upgraded: Result<CheckVerdict, Stopped<RecordFault>>) -> Answer
    ensures is { result ≡ upgrade_answer upgraded }
    ensures ends { can_end compares_runs result ≡ true }
{
    match upgraded {
        Ok(CheckVerdict::Genuine { .. }) => Answer::Done,
        Ok(CheckVerdict::Departs(_)) => Answer::Differs,
        Err(stop) => Answer::from(stop),
    }
}

/// Replays a record of which only the header was read.
pub(crate) fn replay_rest<J: Job, P: Pool<J>, S: Slots, K: Sink>(
    recording: &mut Recording<J>,
    pool: &mut P,
    frames: &mut FrameReader,
    shelf: &mut S,
    sink: &mut K,
) -> Answer
    requires { CanReplay J.meaning recording.old frames.old (S.sees shelf.old) }
    ensures { IsRerun (outcome_with rewrites.Replay J.meaning recording.old.profile)
        (work_of rewrites.Replay) recording.old.profile frames.old
        (shelf_run S.sees S.stays shelf.old shelf.new)
        (sink_run K.took K.faults sink.old sink.new) result }
{
    replay_answer(replay_run(recording, pool, frames, shelf, sink))
}

/// Upgrades a record of which only the header was read.
pub(crate) fn upgrade_rest<J: Job, P: Pool<J>, S: Slots, K: Sink>(
    recording: &mut Recording<J>,
    pool: &mut P,
    original: &mut Original,
    shelf: &mut S,
    sink: &mut K,
) -> Answer
    requires { CanUpgrade J.meaning recording.old original.old (S.sees shelf.old) }
    ensures { IsRerun (outcome_with rewrites.Upgrade J.meaning
        (header_of original.old recording.old.profile)) (work_of rewrites.Upgrade)
        (header_of original.old recording.old.profile) original.old.frames
        (shelf_run S.sees S.stays shelf.old shelf.new)
        (sink_run K.took K.faults sink.old sink.new) result }
{
    upgrade_answer(upgrade_run(recording, pool, original, shelf, sink))
}
