//! The command `chain`: reads two manifests and plans both runs.
ghost use Rattle.std.specs.Prelude.{◌≡◌, ◌∷◌, [], IfSome, true};
ghost use Rattle.std.specs.Option.{unwrap_or};
ghost use Rattle.det_io.specs.Count.{Rose};
ghost use Rattle.det_io.specs.Shelf.{AsksPrefix};
ghost use Rattle.det_io.specs.Traffic.{sink_run};
ghost use Rattle.manifest.specs.Limits.{IsWorkers};
ghost use Rattle.cli_answers.specs.Ends.{can_end};
ghost use Rattle.cli_answers.specs.Outcome.{Meets, KnowsBytes, known_bytes};
ghost use Rattle.cli_answers.specs.Slots.{KeepsSlots};
ghost use Rattle.run_setup.specs.Setup.{setup_of};
ghost use Rattle.shipped_crews.specs.Runs.{IsGoodRun};
ghost use Rattle.cmd_run.specs.record_command.Outcomes.{OpensOnly, record_opens, record_work};
ghost use Rattle.cmd_run.specs.chain_command.Chain.{chain_opens, chain_outcome};
ghost use Rattle.cmd_run.specs.chain_command.Clients.{chained_second};

use crate::chain_command::over_stimulus::chain_named_stimulus;
use crate::record_command::{RunOptions, read_plan};
use cli_answers::Answer;
use det_io::{Shelf, Sink};
use shipped_crews::{Host, PlannedRun};
use std::thread::Threads;

/// The arguments of `chain`.
#[derive(Drop)]
pub struct ChainTask<'t> {
    /// The name of the first client's manifest.
    pub first: &'t str,
    /// The name of the second client's manifest.
    pub second: &'t str,
    /// The name of the stimulus.
    pub stimulus: &'t str,
    /// The options of each client.
    pub options: RunOptions,
}

/// Reads the second manifest, and chains its client to the first one.
fn chain_second<S, K, R>(
    host: &Host<'_, R>,
    first: PlannedRun<'_, R>,
    task: &ChainTask<'_>,
    shelf: &mut S,
    out: &mut K,
) -> Answer
where
    S: Shelf,
    K: Sink,
    R: Threads,
    requires workers { IfSome task.now.options.workers IsWorkers }
    requires first { IsGoodRun first.run.kind first.run.profile }
    ensures meets { Meets
        (chained_second (unwrap_or task.now.options.seed 0)
        (record { kind = first.entry.run.kind; profile = first.entry.run.profile })
        (known_bytes (S.sees shelf.old) task.now.stimulus.now)
        (setup_of task.now.options.strict (known_bytes (S.sees shelf.old) task.now.second.now)))
        (KnowsBytes (S.sees shelf.old) (record_opens (S.sees shelf.old) task.now.options.strict
        task.now.second.now task.now.stimulus.now))
        (Rose (S.sees shelf.old).faults (S.sees shelf.new).faults)
        (sink_run K.took K.faults out.old out.new) result }
    ensures ends { can_end record_work result ≡ true }
    ensures asked { AsksPrefix (S.sees shelf.old) (S.sees shelf.new)
        (task.now.second.now ∷ task.now.stimulus.now ∷ []) }
    ensures earlier { KeepsSlots (S.sees shelf.old) (S.sees shelf.new) }
    ensures judged { OpensOnly (S.sees shelf.old) (S.sees shelf.new)
        (record_opens (S.sees shelf.old) task.now.options.strict task.now.second.now
        task.now.stimulus.now) }
{
    let second = match read_plan(host, task.second, &task.options, shelf) {
        Ok(second) => second,
        Err(end) => return Answer::from(end),
    };
    chain_named_stimulus(first, second, task.stimulus, shelf, out)
}

/// Writes the record of a second client, whose samples are the outputs of a first one over a
/// stimulus. The first client's record is made and dropped. The first manifest is read and checked
/// before the second is opened, and the second before the stimulus.
pub fn chain<S, K, R>(
    host: &Host<'_, R>,
    task: &ChainTask<'_>,
    shelf: &mut S,
    out: &mut K,
) -> Answer
where
    S: Shelf,
    K: Sink,
    R: Threads,
    requires workers { IfSome task.now.options.workers IsWorkers }
    ensures meets { Meets
        (chain_outcome task.now.options.strict (known_bytes (S.sees shelf.old) task.now.first.now)
        (known_bytes (S.sees shelf.old) task.now.second.now)
        (known_bytes (S.sees shelf.old) task.now.stimulus.now) task.now.options.seed)
        (KnowsBytes (S.sees shelf.old) (chain_opens (S.sees shelf.old) task.now.options.strict
        task.now.first.now task.now.second.now task.now.stimulus.now))
        (Rose (S.sees shelf.old).faults (S.sees shelf.new).faults)
        (sink_run K.took K.faults out.old out.new) result }
    ensures ends { can_end record_work result ≡ true }
    ensures asked { AsksPrefix (S.sees shelf.old) (S.sees shelf.new)
        (task.now.first.now ∷ task.now.second.now ∷ task.now.stimulus.now ∷ []) }
    ensures earlier { KeepsSlots (S.sees shelf.old) (S.sees shelf.new) }
    ensures judged { OpensOnly (S.sees shelf.old) (S.sees shelf.new)
        (chain_opens (S.sees shelf.old) task.now.options.strict task.now.first.now
        task.now.second.now task.now.stimulus.now) }
{
    let first = match read_plan(host, task.first, &task.options, shelf) {
        Ok(first) => first,
        Err(end) => return Answer::from(end),
    };
    chain_second(host, first, task, shelf, out)
}
