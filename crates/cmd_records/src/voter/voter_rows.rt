//! `Voter`, a copy that is read row by row until it differs from the majority.
ghost use Rattle.std.specs.Prelude.{◌≡◌, ℕ, ◌<◌, List, [], ◌∷◌, Some, IfOk, map, length, cond};
ghost use Rattle.std.specs.List.{count_by};
ghost use Rattle.std.specs.Option.{option_or};
ghost use Rattle.det_io.specs.Shelf.{ShelfState};
ghost use Rattle.det_io.specs.Traffic.{ShelfTraffic, shelf_run, failure_of};
ghost use Rattle.record_grammar.specs.declared.item.Item.{Item};
ghost use Rattle.record_reader.specs.item_reader.StandsFor.{slot_of};
ghost use Rattle.copies.specs.CompareCopies.{AreDifferent, AreGiven, ReadsAmong};
ghost use Rattle.copies.specs.ItemRows.{IsReaderAfter, ReadsRow};
ghost use Rattle.copies.specs.Needed.{GaveNeeded, AllNeeded};
ghost use Rattle.cmd_records.specs.voter.Rows.{is_in_step, voter_slot, VoterIs, AreVoters};
ghost use Rattle.cmd_records.specs.voter.Rows.{view_answer};
ghost use Rattle.cmd_records.specs.voter.Rows.{RowGiven, ReadIs, RowsRead};

use det_io::{Failure, Slots, Stopped};
use record_grammar::RecordFault;
use record_reader::item_reader::ItemReader;
use record_view::ItemView;
use std::alloc::{AllocError, Global};

/// A row of a copy, as its reader read it.
#[derive(Clone, Copy, Drop)]
pub enum RowView {
    /// An item. The reader has its bytes.
    Item(ItemView),
    /// The record is whole.
    Whole,
    /// The record has a fault.
    Fault,
}

/// A copy that is voted on.
#[derive(Drop)]
pub struct Voter {
    pub reader: ItemReader,
    /// The row that was read last. A copy that left has none.
    pub row: Option<RowView>,
    /// The first row in which the copy differs from the majority. It isn't read any further.
    pub left: Option<u32>,
}

impl Voter {
    /// Reads the next row, unless the copy has left.
    fn read<S: Slots>(&mut self, shelf: &mut S) -> Result<(), Failure>
        requires { slot_of self.old.reader < (S.sees shelf.old).slots }
        ensures row { (first : ShelfState) (given : List Item) (slot : ℕ)
            → VoterIs self.old.left first (S.sees shelf.old) given slot self.old.reader
            → ReadIs result first (S.sees shelf.new) given slot self.new }
        ensures needed { (first : ShelfState) (given : List Item) (slot : ℕ)
            → VoterIs self.old.left first (S.sees shelf.old) given slot self.old.reader
            → GaveNeeded first (S.sees shelf.new) (length given) slot }
        ensures reads { ReadsAmong (S.sees shelf.old) (S.sees shelf.new)
            (slot_of self.old.reader ∷ []) }
        ensures slot { slot_of self.new.reader ≡ slot_of self.old.reader }
        ensures left { self.new.left ≡ self.old.left }
        ensures traffic { ShelfTraffic (shelf_run S.sees S.stays shelf.old shelf.new)
            (failure_of result) }
    {
        if self.left.is_some() {
            self.row = None;
            return Ok(());
        }
        let row = next_voter_row(&mut self.reader, shelf)?;
        self.row = Some(row);
        Ok(())
    }

    /// Marks a copy that doesn't hold the majority's row as having left in this row, unless it left
    /// before.
    pub fn stay(&mut self, holds: bool, number: u32)
        ensures { self.new ≡ record self.old {
          left = cond holds self.old.left (option_or self.old.left (Some number));
        } }
    {
        if !holds {
            self.left = self.left.or(Some(number));
        }
    }
}

/// Reads the next row of a record.
fn next_voter_row<S: Slots>(reader: &mut ItemReader, shelf: &mut S) -> Result<RowView, Failure>
    requires { slot_of reader.old < (S.sees shelf.old).slots }
    ensures row { (first : ShelfState) (given : List Item) (slot : ℕ)
        → IsReaderAfter first (S.sees shelf.old) given slot reader.old
        → RowGiven result first (S.sees shelf.new) given slot reader.new }
    ensures read { ReadsRow (S.sees shelf.old) (S.sees shelf.new) reader.old reader.new }
    ensures traffic { ShelfTraffic (shelf_run S.sees S.stays shelf.old shelf.new)
        (failure_of result) }
{
    vote_row(reader.next(shelf))
}

/// The row of what a reader returned. A record's fault is a row, not an error.
fn vote_row(answer: Result<Option<ItemView>, Stopped<RecordFault>>) -> Result<RowView, Failure>
    ensures { result ≡ view_answer answer }
{
    match answer {
        Ok(Some(view)) => Ok(RowView::Item(view)),
        Ok(None) => Ok(RowView::Whole),
        Err(Stopped::Refused(_)) => Ok(RowView::Fault),
        Err(Stopped::Failed(failure)) => Err(failure),
    }
}

/// A voter for each slot, all in step.
pub fn voters_at(alloc: Global, slots: &[u32]) -> Result<Vec<Voter>, AllocError>
    ensures voters { IfOk result (λ voters. (state : ShelfState)
        → AreVoters state state [] slots.now voters.items) }
    ensures all { IfOk result (λ voters. count_by is_in_step voters.items ≡ length slots.now) }
    ensures length { IfOk result (λ voters. length voters.items ≡ length slots.now) }
{
    let mut voters = Vec::new(alloc);
    'slots: for slot in slots {
        let voter = Voter {
            reader: ItemReader::new(alloc, *slot),
            row: None,
            left: None,
        };
        if voters.push(voter).is_err() {
            return Err(AllocError);
        }
    }
    Ok(voters)
}

/// Reads the next row of each copy that hasn't left.
pub fn read_voter_rows<S: Slots>(voters: &mut Vec<Voter>, shelf: &mut S) -> Result<(), Failure>
    requires given { AreGiven (S.sees shelf.old) (map voter_slot voters.old.items) }
    ensures rows { (first : ShelfState) (given : List Item) (slots : List ℕ)
        → AreDifferent slots → AreVoters first (S.sees shelf.old) given slots voters.old.items
        → RowsRead result first (S.sees shelf.new) given slots voters.new.items }
    ensures needed { (first : ShelfState) (given : List Item) (slots : List ℕ)
        → AreDifferent slots → AreVoters first (S.sees shelf.old) given slots voters.old.items
        → AllNeeded first (S.sees shelf.new) (length given) slots }
    ensures slots { map voter_slot voters.new.items ≡ map voter_slot voters.old.items }
    ensures reads { ReadsAmong (S.sees shelf.old) (S.sees shelf.new)
        (map voter_slot voters.old.items) }
    ensures traffic { ShelfTraffic (shelf_run S.sees S.stays shelf.old shelf.new)
        (failure_of result) }
{
    'voters: for index in 0..voters.len() {
        voters[index].read(shelf)?;
    }
    Ok(())
}
