//! `RecordedRun`: the run that a record names, and how it is opened.
ghost use Rattle.std.specs.Prelude.{◌≡◌, ◌∷◌, [], length, None, Some, Ok, Err};
ghost use Rattle.std.specs.Prelude.{IfOk, IfErr, IsSome};
ghost use Rattle.det_io.specs.Shelf.{Asks};
ghost use Rattle.det_io.specs.Traffic.{ShelfTraffic, shelf_run, failure_in, IfRefused};
ghost use Rattle.det_io.specs.declared.failure.Stopped.TheVariants as stops;
ghost use Rattle.jobs.specs.Kinds.{bad_param};
ghost use Rattle.cli_answers.specs.Outcome.{known_bytes};
ghost use Rattle.cli_answers.specs.Slots.{KeepsSlots};
ghost use Rattle.run_setup.specs.declared.recorded_run.bad_run.BadRun.TheVariants as bad_runs;
ghost use Rattle.run_setup.specs.recorded_run.Run.{run_of, kind_of};
ghost use Rattle.run_setup.specs.recorded_run.OpenedRun.{HasBegun};

use crate::recorded_run::bad_run::{BadRun, as_bad_run};
use crate::recorded_run::job_kind::kind_of;
use det_io::{Failure, Shelf, Stopped};
use det_values::{JobKind, Profile};
use record_reader::{FrameReader, OpenRecord, open_record};
use std::alloc::Global;

/// The run that a record's header names, and the rest of the record.
#[derive(Drop)]
pub struct RecordedRun {
    /// The job with the number in the profile.
    pub kind: JobKind,
    pub profile: Profile,
    /// The reader of the record, which has read only the header.
    pub frames: FrameReader,
}

/// Opens the name of a record and reads its header, until that is whole or has a fault. It reads in
/// pieces of up to 65,536 bytes, which no clause says. `Failed` has `Read` if the shelf fails to
/// open or to read.
pub fn open_recorded_run<S: Shelf>(
    alloc: Global,
    recorded: &str,
    shelf: &mut S,
) -> Result<RecordedRun, Stopped<BadRun>>
    ensures run { IfOk result (λ run. IsSome ((S.sees shelf.old).holds recorded.now)
        → run_of (known_bytes (S.sees shelf.old) recorded.now)
        ≡ Ok (record { kind = run.kind; profile = run.profile })) }
    ensures good { IfOk result (λ run.
        bad_param run.kind run.profile.params (length run.profile.events) ≡ None) }
    ensures begun { IfOk result (λ run.
        HasBegun (S.sees shelf.old) (S.sees shelf.new) recorded.now run) }
    ensures refused { IfErr result (λ e. IfRefused e (λ why.
        IsSome ((S.sees shelf.old).holds recorded.now)
        → run_of (known_bytes (S.sees shelf.old) recorded.now) ≡ Err why)) }
    ensures traffic { ShelfTraffic (shelf_run S.sees S.stays shelf.old shelf.new)
        (failure_in result) }
    ensures writes_nothing { failure_in result ≡ Some Failure.Write → ⊥ }
    ensures asked { Asks (S.sees shelf.old) (S.sees shelf.new) (recorded.now ∷ []) }
    ensures earlier { KeepsSlots (S.sees shelf.old) (S.sees shelf.new) }
{
    let slot = shelf.open_input(recorded)?;
    match open_record(alloc, slot, shelf) {
        Ok(opened) => recorded_run_in(opened),
        Err(end) => Err(as_bad_run(end)),
    }
}

/// The run of an opened record, if a shipped job takes its profile.
fn recorded_run_in(opened: OpenRecord) -> Result<RecordedRun, Stopped<BadRun>>
    ensures kind { IfOk result (λ run. kind_of opened.profile ≡ Some run.kind) }
    ensures profile { IfOk result (λ run. run.profile ≡ opened.profile) }
    ensures frames { IfOk result (λ run. run.frames ≡ opened.frames) }
    ensures good { IfOk result (λ run.
        bad_param run.kind run.profile.params (length run.profile.events) ≡ None) }
    ensures no_kind { IfErr result (λ e. kind_of opened.profile ≡ None) }
    ensures refused { IfErr result (λ e. e ≡ stops.Refused bad_runs.Profile) }
    ensures fails_not { failure_in result ≡ None }
{
    let OpenRecord { profile, frames } = opened;
    match kind_of(&profile) {
        Some(kind) => Ok(RecordedRun {
            kind,
            profile,
            frames,
        }),
        None => Err(Stopped::Refused(BadRun::Profile)),
    }
}
