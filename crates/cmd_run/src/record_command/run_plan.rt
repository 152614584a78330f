//! Reads a manifest and plans its run: its profile and its number of workers. `record` and `chain`
//! use it.
ghost use Rattle.std.specs.Prelude.{◌≡◌, ◌⊎◌, ◌≤◌, ◌∷◌, [], IfOk, IfErr, IfSome};
ghost use Rattle.std.specs.Option.{unwrap_or};
ghost use Rattle.det_io.specs.Shelf.{Asks, SlotsStay};
ghost use Rattle.manifest.specs.Limits.{IsWorkers};
ghost use Rattle.manifest.specs.Profiles.{profile_of};
ghost use Rattle.cli_answers.specs.Slots.{KeepsSlots};
ghost use Rattle.run_setup.specs.Setup.{IsGood, Takes};
ghost use Rattle.shipped_crews.specs.Runs.{IsGoodRun};
ghost use Rattle.cmd_run.specs.record_command.Plans.{IsPlanned, IsUnplanned};

use cli_answers::BadManifest;
use det_io::{Shelf, Stopped};
use manifest::Manifest;
use run_setup::read_setup;
use shipped_crews::{Host, PlannedRun, ShippedRun};
use std::alloc::AllocError;

/// The options of a command that runs the job of a manifest.
#[derive(Clone, Copy, Drop)]
pub struct RunOptions {
    /// Whether a key that no table of a manifest knows is a fault.
    pub strict: bool,
    /// The seed. 0 if there is none.
    pub seed: Option<u64>,
    /// The number of workers. If there is none, the one in the manifest.
    pub workers: Option<u32>,
}

/// The number of workers: `given`, or else that of the manifest.
fn workers_or(given: Option<u32>, own: u32) -> u32
    requires given { IfSome given IsWorkers }
    requires own { IsWorkers own }
    ensures chosen { result ≡ unwrap_or given own }
    ensures fits { IsWorkers result }
{
    match given {
        Some(workers) => workers,
        None => own,
    }
}

/// The run of a manifest, and the workers for it.
fn plan_run<'h, R>(
    host: &Host<'h, R>,
    setup: &Manifest,
    options: &RunOptions,
) -> Result<PlannedRun<'h, R>, AllocError>
    requires good { IsGood setup.now }
    requires workers { IfSome options.now.workers IsWorkers }
    ensures kind { IfOk result (λ plan. plan.run.kind ≡ setup.now.kind) }
    ensures profile { IfOk result (λ plan.
        plan.run.profile ≡ profile_of setup.now (unwrap_or options.now.seed 0)) }
    ensures good { IfOk result (λ plan. IsGoodRun plan.run.kind plan.run.profile) }
    ensures workers { IfOk result (λ plan.
        plan.workers.count ≡ unwrap_or options.now.workers setup.now.workers) }
{
    let profile = setup.profile(host.alloc, options.seed.unwrap_or(0))?;
    let kind = setup.kind();
    let workers = host.workers(workers_or(options.workers, setup.workers()));
    let run = ShippedRun { kind, profile };
    Ok(PlannedRun { run, workers })
}

/// Reads the manifest under a name, and plans its run.
pub(crate) fn read_plan<'h, S: Shelf, R>(
    host: &Host<'h, R>,
    name: &str,
    options: &RunOptions,
    shelf: &mut S,
) -> Result<PlannedRun<'h, R>, Stopped<BadManifest>>
    requires workers { IfSome options.now.workers IsWorkers }
    ensures planned { IfOk result (λ plan. IsPlanned (S.sees shelf.old) name.now options.now.strict
        options.now.seed options.now.workers plan.run.kind plan.run.profile plan.workers.count) }
    ensures good { IfOk result (λ plan. IsGoodRun plan.run.kind plan.run.profile) }
    ensures unplanned { IfErr result (λ end. IsUnplanned (S.sees shelf.old) (S.sees shelf.new)
        name.now options.now.strict end) }
    ensures piece { SlotsStay (S.sees shelf.old) (S.sees shelf.new)
        ⊎ Takes (S.sees shelf.old) (S.sees shelf.new) name.now 69632 }
    ensures counted { (S.sees shelf.old).faults ≤ (S.sees shelf.new).faults }
    ensures holds { (S.sees shelf.new).holds ≡ (S.sees shelf.old).holds }
    ensures asked { Asks (S.sees shelf.old) (S.sees shelf.new) (name.now ∷ []) }
    ensures earlier { KeepsSlots (S.sees shelf.old) (S.sees shelf.new) }
{
    let setup = read_setup(host.alloc, name, options.strict, shelf)?;
    let plan = plan_run(host, &setup, options)?;
    Ok(plan)
}
