//! The loop that compares copies row by row. `Copies` reads one row of each.
ghost use Rattle.std.specs.Prelude.{◌≡◌, ℕ, ◌≤◌, List, Some, length};
ghost use Rattle.det_io.specs.Traffic.{ShelfTraffic, shelf_run, failure_in};
ghost use Rattle.det_io.specs.declared.failure.Failure.TheVariants.{Write};
ghost use Rattle.copies.specs.CompareCopies.{AreDifferent, AreGiven, AreLeft, ReadsAmong, Compared};
ghost use Rattle.copies.specs.Needed.{AllNeeded, shared_rows};

use crate::copies::Copies;
use crate::{BadCopy, Verdict};
use det_io::{Slots, Stopped};
use std::alloc::Global;

/// Compares the copies of a record in these slots, row by row. A row is the header, a frame, or the
/// end of the record.
///
/// `Refused` has the least copy with a fault in the first row in which not all hold an equal item.
/// The contract leaves open when it is found, and with how much memory. This code reports a fault at
/// once, and a difference once all copies were read at its row. While the copies agree, it holds
/// only the item of copy 0.
pub fn compare<S: Slots>(
    alloc: Global,
    shelf: &mut S,
    slots: &[u32],
) -> Result<Verdict, Stopped<BadCopy>>
    requires some { 2 ≤ length slots.now }
    requires few { length slots.now ≤ 8 }
    requires given { AreGiven (S.sees shelf.old) slots.now }
    requires different { AreDifferent slots.now }
    ensures compared { Compared result (S.sees shelf.old) (S.sees shelf.new) slots.now }
    // No byte of a copy is read after the row that decides: before the last piece of it was read,
    // no row after the items that all copies share could be seen.
    ensures needed { (copies : List (List ℕ)) → AreLeft (S.sees shelf.old) slots.now copies
        → AllNeeded (S.sees shelf.old) (S.sees shelf.new) (shared_rows copies) slots.now }
    ensures reads { ReadsAmong (S.sees shelf.old) (S.sees shelf.new) slots.now }
    ensures traffic { ShelfTraffic (shelf_run S.sees S.stays shelf.old shelf.new)
        (failure_in result) }
    ensures writes_nothing { failure_in result ≡ Some Write → ⊥ }
{
    let mut copies = Copies::new(alloc, slots)?;
    'rows: loop {
        if let Some(verdict) = copies.read_row(shelf)? {
            return Ok(verdict);
        }
    }
}
