//! `open_record`, which opens one name.
ghost use Rattle.std.specs.Prelude.{◌≢◌, ◌∷◌, [], Some, IfOk, OnErr};
ghost use Rattle.det_io.specs.declared.failure.Failure.TheVariants as failures;
ghost use Rattle.det_io.specs.Shelf.{Asks, AsksPrefix, Opens, SlotsStay};
ghost use Rattle.det_io.specs.Traffic.{ShelfTraffic, shelf_run, failure_of};
ghost use Rattle.cli_answers.specs.Slots.{KeepsSlots};

use det_io::{Failure, Shelf};

/// Opens a name and returns its slot.
pub fn open_record<S: Shelf>(recorded: &str, shelf: &mut S) -> Result<u32, Failure>
    ensures opens { IfOk result (Opens (S.sees shelf.old) (S.sees shelf.new) recorded.now) }
    ensures slots { OnErr result (SlotsStay (S.sees shelf.old) (S.sees shelf.new)) }
    ensures asks { Asks (S.sees shelf.old) (S.sees shelf.new) (recorded.now ∷ []) }
    ensures asked { AsksPrefix (S.sees shelf.old) (S.sees shelf.new) (recorded.now ∷ []) }
    ensures earlier { KeepsSlots (S.sees shelf.old) (S.sees shelf.new) }
    ensures no_write { failure_of result ≢ Some failures.Write }
    ensures traffic { ShelfTraffic (shelf_run S.sees S.stays shelf.old shelf.new)
        (failure_of result) }
{
    shelf.open_input(recorded)
}
