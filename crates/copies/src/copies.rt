//! `Copies`: one reader for each copy, and the counts of what all of them gave.
ghost use Rattle.std.specs.Prelude.{ℕ, ◌<◌, ◌≤◌, List, [], Some, IfOk, length};
ghost use Rattle.det_io.specs.Shelf.{ShelfState};
ghost use Rattle.det_io.specs.Traffic.{ShelfTraffic, shelf_run, failure_in};
ghost use Rattle.record_grammar.specs.declared.item.Item.{Item};
ghost use Rattle.record_reader.specs.item_reader.StandsFor.{room};
ghost use Rattle.copies.specs.CompareCopies.{AreDifferent, AreGiven, ReadsAmong};
ghost use Rattle.copies.specs.Needed.{AllNeeded};
ghost use Rattle.copies.specs.Copies.{slots_of, AreCopiesAfter, RowRead, IsCounted};

use crate::copy_readers::{compare_others, item_bytes, next_of_copy, readers_at};
use crate::{BadCopy, Verdict};
use det_io::{Slots, Stopped};
use record_reader::item_reader::ItemReader;
use record_reader::runs_of;
use record_view::ItemView;
use std::alloc::{AllocError, Global};

/// The readers of all copies. Each gave the same items so far.
#[derive(Drop)]
pub struct Copies {
    /// The reader of copy 0, with whose rows the others are compared.
    pub first: ItemReader,
    pub others: Vec<ItemReader>,
    /// The number of rows that were read of each copy.
    pub rows: u32,
    /// How many of these rows were Run frames.
    pub cycles: u32,
}

impl Copies {
    /// Readers for these slots, in this order. Nothing was read yet.
    pub fn new(alloc: Global, slots: &[u32]) -> Result<Copies, AllocError>
        requires { 1 ≤ length slots.now }
        ensures { IfOk result (λ copies. (state : ShelfState)
            → AreCopiesAfter state state [] slots.now copies) }
    {
        Ok(Copies {
            first: ItemReader::new(alloc, slots[0]),
            others: readers_at(alloc, &slots[1..])?,
            rows: 0,
            cycles: 0,
        })
    }

    /// Reads a row of every copy. None where all hold an equal item. The item of copy 0 is held in
    /// memory, and an item of another copy only where it differs.
    pub fn read_row<S: Slots>(&mut self, shelf: &mut S) -> Result<Option<Verdict>, Stopped<BadCopy>>
        requires given { AreGiven (S.sees shelf.old) (slots_of self.old) }
        requires few { length self.old.others.items ≤ 7 }
        requires rows { self.old.rows < 4294967295 }
        requires cycles { self.old.cycles ≤ self.old.rows }
        requires stand { (first : ShelfState) × (given : List Item) × (slots : List ℕ)
            × AreDifferent slots × AreCopiesAfter first (S.sees shelf.old) given slots self.old }
        ensures row { (first : ShelfState) (given : List Item) (slots : List ℕ)
            → AreDifferent slots → AreCopiesAfter first (S.sees shelf.old) given slots self.old
            → RowRead result first (S.sees shelf.new) given slots (room self.old.first) self.new }
        ensures needed { (first : ShelfState) (given : List Item) (slots : List ℕ)
            → AreDifferent slots → AreCopiesAfter first (S.sees shelf.old) given slots self.old
            → AllNeeded first (S.sees shelf.new) (length given) slots }
        ensures reads { ReadsAmong (S.sees shelf.old) (S.sees shelf.new) (slots_of self.old) }
        ensures traffic { ShelfTraffic (shelf_run S.sees S.stays shelf.old shelf.new)
            (failure_in result) }
    {
        let item = next_of_copy(&mut self.first, shelf, 0)?;
        let bytes = item_bytes(&self.first, item);
        let found = compare_others(&mut self.others, shelf, self.rows, item, bytes)?;
        Ok(self.finish_row(item, found))
    }

    /// Counts the row if all copies hold an item that is equal. Otherwise returns the verdict: what
    /// differs, or that the copies agree up to their end.
    fn finish_row(&mut self, item: Option<ItemView>, found: Option<Verdict>) -> Option<Verdict>
        requires rows { self.old.rows < 4294967295 }
        requires cycles { self.old.cycles ≤ self.old.rows }
        ensures { IsCounted item found result self.old self.new }
    {
        if found.is_some() {
            return found;
        }
        let Some(item) = item else {
            return Some(Verdict::Agree {
                cycles: self.cycles,
            });
        };
        self.rows += 1;
        self.cycles += runs_of(item.span.kind);
        None
    }
}
