//! The command `record`: the record of a manifest's profile.
ghost use Rattle.std.specs.Prelude.{◌≡◌, ◌∷◌, [], IfSome, true};
ghost use Rattle.det_io.specs.Count.{Rose};
ghost use Rattle.det_io.specs.Shelf.{AsksPrefix};
ghost use Rattle.det_io.specs.Traffic.{sink_run};
ghost use Rattle.manifest.specs.Limits.{IsWorkers};
ghost use Rattle.cli_answers.specs.Ends.{can_end};
ghost use Rattle.cli_answers.specs.Outcome.{Meets, KnowsBytes, known_bytes};
ghost use Rattle.cli_answers.specs.Slots.{KeepsSlots};
ghost use Rattle.cmd_run.specs.record_command.Outcomes.{OpensOnly, record_opens};
ghost use Rattle.cmd_run.specs.record_command.Outcomes.{record_outcome, record_work};

use crate::record_command::over_stimulus::record_named_stimulus;
use crate::record_command::run_plan::{RunOptions, read_plan};
use cli_answers::Answer;
use det_io::{Shelf, Sink};
use shipped_crews::{Host, PlannedRun};
use std::thread::Threads;

/// The arguments of `record`.
#[derive(Drop)]
pub struct RecordTask<'t> {
    /// The name of the manifest.
    pub manifest: &'t str,
    /// The name of the stimulus.
    pub stimulus: &'t str,
    pub options: RunOptions,
}

/// Writes the record of a manifest's profile over a stimulus. The manifest is read and checked
/// before the stimulus is opened.
pub fn record_by_manifest<S, K, R>(
    host: &Host<'_, R>,
    task: &RecordTask<'_>,
    shelf: &mut S,
    out: &mut K,
) -> Answer
where
    S: Shelf,
    K: Sink,
    R: Threads,
    requires workers { IfSome task.now.options.workers IsWorkers }
    ensures meets { Meets
        (record_outcome task.now.options.strict
        (known_bytes (S.sees shelf.old) task.now.manifest.now)
        (known_bytes (S.sees shelf.old) task.now.stimulus.now) task.now.options.seed)
        (KnowsBytes (S.sees shelf.old) (record_opens (S.sees shelf.old) task.now.options.strict
        task.now.manifest.now task.now.stimulus.now))
        (Rose (S.sees shelf.old).faults (S.sees shelf.new).faults)
        (sink_run K.took K.faults out.old out.new) result }
    ensures ends { can_end record_work result ≡ true }
    ensures asked { AsksPrefix (S.sees shelf.old) (S.sees shelf.new)
        (task.now.manifest.now ∷ task.now.stimulus.now ∷ []) }
    ensures earlier { KeepsSlots (S.sees shelf.old) (S.sees shelf.new) }
    ensures judged { OpensOnly (S.sees shelf.old) (S.sees shelf.new)
        (record_opens (S.sees shelf.old) task.now.options.strict task.now.manifest.now
        task.now.stimulus.now) }
{
    let client = match read_plan(host, task.manifest, &task.options, shelf) {
        Ok(client) => client,
        Err(end) => return Answer::from(end),
    };
    let PlannedRun { run, workers } = client;
    record_named_stimulus(&workers, run, task.stimulus, shelf, out)
}
