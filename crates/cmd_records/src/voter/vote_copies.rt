//! `vote`, which votes copies in slots into one record.
ghost use Rattle.std.specs.Prelude.{◌≡◌, ℕ, ◌≤◌, List, length};
ghost use Rattle.det_io.specs.Traffic.{ShelfTraffic, SinkTraffic};
ghost use Rattle.det_io.specs.Traffic.{shelf_run, sink_run, failure_in};
ghost use Rattle.copies.specs.CompareCopies.{AreDifferent, AreGiven, AreLeft, ReadsAmong};
ghost use Rattle.copies.specs.Needed.{AllNeeded};
ghost use Rattle.cmd_records.specs.voter.Majority.{voted_items};
ghost use Rattle.cmd_records.specs.voter.VoteResult.{HasVoted};

use crate::voter::voters::Voters;
use crate::voter::{NoMajority, Vote};
use det_io::{Sink, Slots, Stopped};
use std::alloc::Global;

/// Votes the copies of a record in these slots into one, row by row.
///
/// A row is the header, a frame, or how the record ends. A fault equals nothing. Each row that more
/// than half of all copies hold after equal rows is written. The contract leaves open when and with
/// how much memory. This code writes a row as it is read, reads no further in a copy that differs
/// from it, and holds at most one row of each copy, in the bytes in which it was read.
///
/// `Refused` has the first row that not more than half of the copies hold. What was written before
/// it stays written.
pub fn vote<S: Slots, K: Sink>(
    alloc: Global,
    shelf: &mut S,
    slots: &[u32],
    sink: &mut K,
) -> Result<Vote, Stopped<NoMajority>>
    requires some { 3 ≤ length slots.now }
    requires few { length slots.now ≤ 7 }
    requires given { AreGiven (S.sees shelf.old) slots.now }
    requires different { AreDifferent slots.now }
    ensures voted { HasVoted result (S.sees shelf.old) (S.sees shelf.new) slots.now
        (sink_run K.took K.faults sink.old sink.new) }
    // No copy is read further than the deciding row needs: all bytes before a copy's last piece
    // showed no row after the voted items.
    ensures needed { (copies : List (List ℕ)) → AreLeft (S.sees shelf.old) slots.now copies
        → AllNeeded (S.sees shelf.old) (S.sees shelf.new) (length (voted_items copies)) slots.now }
    ensures reads { ReadsAmong (S.sees shelf.old) (S.sees shelf.new) slots.now }
    ensures shelf_traffic { ShelfTraffic (shelf_run S.sees S.stays shelf.old shelf.new)
        (failure_in result) }
    ensures sink_traffic { SinkTraffic (sink_run K.took K.faults sink.old sink.new)
        (failure_in result) }
{
    let mut voters = Voters::new(alloc, slots)?;
    'rows: loop {
        let Some(item) = voters.next_row(shelf)? else {
            return voters.outcome(alloc);
        };
        voters.write(item, sink)?;
    }
}
