//! Reads the manifest under a name of a shelf. `setup_of` decodes and checks it.
ghost use Rattle.std.specs.Prelude.{◌≡◌, ◌⊎◌, ◌∷◌, [], Some, Ok, Err, IfOk, IfErr, IsSome};
ghost use Rattle.det_io.specs.Shelf.{Asks, SlotsStay};
ghost use Rattle.det_io.specs.Traffic.{ShelfTraffic, shelf_run, failure_in, IfRefused};
ghost use Rattle.cli_answers.specs.Outcome.{known_bytes};
ghost use Rattle.cli_answers.specs.Slots.{KeepsSlots};
ghost use Rattle.run_setup.specs.Setup.{setup_of, IsGood, Takes};

use crate::manifest_check::setup_of;
use cli_answers::BadManifest;
use det_io::{Failure, Shelf, Stopped, TooLong, read_limited};
use manifest::{MOST_BYTES, Manifest, ManifestFault};
use std::alloc::Global;

/// Opens a name and reads the manifest under it, whose parameters its job takes. If `strict` is
/// set, a key that no table of a manifest knows is a fault.
///
/// A manifest has at most 65,536 bytes. At most one piece of 4,096 bytes is read beyond that.
///
/// It returns the manifest and not a job: a value that is one of three jobs would need three arms
/// wherever it is passed on.
pub fn read_setup<S: Shelf>(
    alloc: Global,
    name: &str,
    strict: bool,
    shelf: &mut S,
) -> Result<Manifest, Stopped<BadManifest>>
    ensures manifest { IfOk result (λ m. IsSome ((S.sees shelf.old).holds name.now)
        → setup_of strict (known_bytes (S.sees shelf.old) name.now) ≡ Ok m) }
    ensures good { IfOk result IsGood }
    ensures refused { IfErr result (λ e. IfRefused e (λ why.
        IsSome ((S.sees shelf.old).holds name.now)
        → setup_of strict (known_bytes (S.sees shelf.old) name.now) ≡ Err why)) }
    ensures piece { SlotsStay (S.sees shelf.old) (S.sees shelf.new)
        ⊎ Takes (S.sees shelf.old) (S.sees shelf.new) name.now 69632 }
    ensures traffic { ShelfTraffic (shelf_run S.sees S.stays shelf.old shelf.new)
        (failure_in result) }
    ensures writes_nothing { failure_in result ≡ Some Failure.Write → ⊥ }
    ensures holds { (S.sees shelf.new).holds ≡ (S.sees shelf.old).holds }
    ensures asked { Asks (S.sees shelf.old) (S.sees shelf.new) (name.now ∷ []) }
    ensures earlier { KeepsSlots (S.sees shelf.old) (S.sees shelf.new) }
{
    let slot = shelf.open_input(name)?;
    let text = match read_limited(alloc, shelf, slot, MOST_BYTES) {
        Ok(text) => text,
        Err(Stopped::Refused(TooLong)) => {
            return Err(Stopped::Refused(BadManifest::Fault(ManifestFault::TooLong)));
        }
        Err(Stopped::Failed(failure)) => return Err(Stopped::Failed(failure)),
    };
    setup_of(alloc, &text, strict)
}
