//! `open_all`, which opens each name in a slot of its own.
ghost use Rattle.std.specs.Prelude.{◌≡◌, ◌≢◌, ◌+◌, ◌<◌, length, map, Some, IfOk, OnOk};
ghost use Rattle.det_io.specs.declared.failure.Failure.TheVariants as failures;
ghost use Rattle.det_io.specs.Shelf.{Asks, AsksPrefix};
ghost use Rattle.det_io.specs.Traffic.{ShelfTraffic, shelf_run, failure_of};
ghost use Rattle.copies.specs.CompareCopies.{AreDifferent, AreGiven};
ghost use Rattle.cli_answers.specs.Slots.{KeepsSlots};
ghost use Rattle.cmd_records.specs.open_names.OpenedSlots.{Opened};

use det_io::{Failure, Shelf};
use std::alloc::Global;

/// Opens the names in their order, each in a slot of its own. Returns the slots in the same order.
pub fn open_all<S: Shelf>(alloc: Global, names: &[&str], shelf: &mut S) -> Result<Vec<u32>, Failure>
    ensures opened { IfOk result (λ slots. Opened (S.sees shelf.old) (S.sees shelf.new)
        (map (λ name. name.now) names.now) slots.items) }
    // What the calls that read copies require.
    ensures given { IfOk result (λ slots. AreGiven (S.sees shelf.new) slots.items) }
    ensures different { IfOk result (λ slots. AreDifferent slots.items) }
    ensures many { IfOk result (λ slots. length slots.items ≡ length names.now) }
    ensures all { OnOk result (Asks (S.sees shelf.old) (S.sees shelf.new)
        (map (λ name. name.now) names.now)) }
    ensures asked { AsksPrefix (S.sees shelf.old) (S.sees shelf.new)
        (map (λ name. name.now) names.now) }
    ensures holds { (S.sees shelf.new).holds ≡ (S.sees shelf.old).holds }
    ensures earlier { KeepsSlots (S.sees shelf.old) (S.sees shelf.new) }
    ensures unopened { failure_of result ≡ Some failures.Read
        → (S.sees shelf.new).slots < (S.sees shelf.old).slots + length names.now }
    ensures no_write { failure_of result ≢ Some failures.Write }
    ensures traffic { ShelfTraffic (shelf_run S.sees S.stays shelf.old shelf.new)
        (failure_of result) }
{
    let mut slots = Vec::with_capacity(alloc, names.len())?;
    'names: for name in names {
        let slot = shelf.open_input(name)?;
        slots.push(slot).map_err(|_| Failure::OutOfMemory)?;
    }
    Ok(slots)
}
