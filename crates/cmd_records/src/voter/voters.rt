//! `Voters`, all copies of a vote side by side.
ghost use Rattle.std.specs.Prelude.{◌≡◌, ℕ, ◌+◌, ◌<◌, ◌≤◌, List, [], ◌++◌, IfOk, OnOk, map};
ghost use Rattle.std.specs.Prelude.{length, true};
ghost use Rattle.std.specs.List.{count_by};
ghost use Rattle.det_io.specs.Shelf.{ShelfState};
ghost use Rattle.det_io.specs.Traffic.{ShelfTraffic, SinkTraffic, shelf_run, sink_run};
ghost use Rattle.det_io.specs.Traffic.{failure_in};
ghost use Rattle.record_grammar.specs.declared.item.Item.{Item};
ghost use Rattle.record_grammar.specs.declared.place.Place.{Place};
ghost use Rattle.record_grammar.specs.Laws.{MayStand, item_spelling};
ghost use Rattle.record_grammar.specs.Spelling.{AreBytes};
ghost use Rattle.copies.specs.CompareCopies.{AreDifferent, AreGiven, ReadsAmong};
ghost use Rattle.copies.specs.Needed.{AllNeeded};
ghost use Rattle.cmd_records.specs.voter.Majority.{is_most};
ghost use Rattle.cmd_records.specs.voter.Rows.{is_in_step, voter_slot};
ghost use Rattle.cmd_records.specs.voter.VotersState.{Stand, RowTaken, IsHeldIn, held_in, Counts};
ghost use Rattle.cmd_records.specs.voter.VotersState.{Writes};
ghost use Rattle.cmd_records.specs.voter.VotersState.{IsVoteOf, dissenter, dissenters};

use crate::voter::majority::{majority_holders, mark_leavers};
use crate::voter::voter_rows::{RowView, Voter, read_voter_rows, voters_at};
use crate::voter::{Dissent, Dissenter, NoMajority, Vote};
use det_io::{Sink, Slots, Stopped, write_all};
use record_reader::runs_of;
use record_view::{ItemView, events_at};
use std::alloc::{AllocError, Global};

/// The copies, and how many rows more than half of them held together.
#[derive(Drop)]
pub struct Voters {
    pub voters: Vec<Voter>,
    /// The number of rows that were held.
    pub rows: u32,
    /// The number of these rows that are Run frames.
    pub cycles: u32,
}

/// An item that more than half of the copies hold, in the bytes of one of them.
#[derive(Clone, Copy, Drop)]
pub struct HeldItem {
    /// The first copy that holds it.
    pub copy: usize,
    /// The places of its parts in the bytes of that copy's reader.
    pub view: ItemView,
}

impl Voters {
    /// Copies of which nothing was read yet.
    pub fn new(alloc: Global, slots: &[u32]) -> Result<Voters, AllocError>
        requires { 1 ≤ length slots.now }
        ensures { IfOk result (λ voters. (state : ShelfState)
            → Stand state state [] slots.now voters) }
    {
        Ok(Voters {
            voters: voters_at(alloc, slots)?,
            rows: 0,
            cycles: 0,
        })
    }

    /// The next item that more than half of the copies hold, or None at the end of their record.
    /// The copies that don't hold it leave.
    pub fn next_row<S: Slots>(
        &mut self,
        shelf: &mut S,
    ) -> Result<Option<HeldItem>, Stopped<NoMajority>>
        requires given { AreGiven (S.sees shelf.old) (map voter_slot self.old.voters.items) }
        requires rows { self.old.rows < 4294967295 }
        requires cycles { self.old.cycles ≤ self.old.rows }
        requires few { length self.old.voters.items ≤ 7 }
        requires stand { (first : ShelfState) × (given : List Item) × (slots : List ℕ)
            × AreDifferent slots × Stand first (S.sees shelf.old) given slots self.old }
        ensures row { (first : ShelfState) (given : List Item) (slots : List ℕ)
            → AreDifferent slots → Stand first (S.sees shelf.old) given slots self.old
            → RowTaken result first (S.sees shelf.new) given slots self.new }
        ensures needed { (first : ShelfState) (given : List Item) (slots : List ℕ)
            → AreDifferent slots → Stand first (S.sees shelf.old) given slots self.old
            → AllNeeded first (S.sees shelf.new) (length given) slots }
        ensures reads { ReadsAmong (S.sees shelf.old) (S.sees shelf.new)
            (map voter_slot self.old.voters.items) }
        ensures traffic { ShelfTraffic (shelf_run S.sees S.stays shelf.old shelf.new)
            (failure_in result) }
    {
        read_voter_rows(&mut self.voters, shelf)?;
        let Some(holders) = majority_holders(&self.voters) else {
            return Err(Stopped::Refused(NoMajority { row: self.rows }));
        };
        mark_leavers(&mut self.voters, &holders.same, self.rows);
        let item = majority_item(holders.first, self.voters[holders.first].row);
        self.count(item);
        Ok(item)
    }

    /// Counts a held item.
    fn count(&mut self, item: Option<HeldItem>)
        requires rows { self.old.rows < 4294967295 }
        requires cycles { self.old.cycles ≤ self.old.rows }
        ensures { Counts item self.old self.new }
    {
        if let Some(item) = item {
            self.rows += 1;
            self.cycles += runs_of(item.view.span.kind);
        }
    }

    /// Writes the bytes of a held item as they were read.
    pub fn write<K: Sink>(&self, item: HeldItem, sink: &mut K) -> Result<(), Stopped<NoMajority>>
        requires { (place : Place) × (x : Item) × IsHeldIn self.now.voters.items item place x }
        ensures writes { (place : Place) (x : Item) → IsHeldIn self.now.voters.items item place x
            → Writes result (item_spelling place x)
            (sink_run K.took K.faults sink.old sink.new) × MayStand place x }
        ensures traffic { SinkTraffic (sink_run K.took K.faults sink.old sink.new)
            (failure_in result) }
    {
        let _events = events_at(item.view.place);
        write_majority_row(self.voters[item.copy].reader.bytes(item.view), sink)
    }

    /// The result of the vote at the end of the majority's record.
    pub fn outcome(&self, alloc: Global) -> Result<Vote, Stopped<NoMajority>>
        requires most { is_most (count_by is_in_step self.now.voters.items)
            (length self.now.voters.items) ≡ true }
        requires few { length self.now.voters.items ≤ 7 }
        ensures { IsVoteOf result self.now }
    {
        let dissent = dissent_of(alloc, &self.voters)?;
        Ok(Vote {
            cycles: self.cycles,
            dissent,
        })
    }
}

/// The item of the row that this copy holds. None at the end of a whole record.
fn majority_item(copy: usize, row: Option<RowView>) -> Option<HeldItem>
    ensures { result ≡ held_in copy row }
{
    match row {
        Some(RowView::Item(view)) => Some(HeldItem { copy, view }),
        Some(RowView::Whole) | Some(RowView::Fault) | None => None,
    }
}

/// Writes these bytes. The second clause states that a slice of `u8` consists of bytes.
fn write_majority_row<K: Sink>(bytes: &[u8], sink: &mut K) -> Result<(), Stopped<NoMajority>>
    ensures writes { Writes result bytes.now (sink_run K.took K.faults sink.old sink.new) }
    ensures bytes { AreBytes bytes.now }
    ensures traffic { SinkTraffic (sink_run K.took K.faults sink.old sink.new)
        (failure_in result) }
{
    write_all(sink, bytes)?;
    Ok(())
}

/// The copies that left, in their order.
fn dissent_of(alloc: Global, voters: &[Voter]) -> Result<Dissent, AllocError>
    requires few { length (dissenters 0 voters.now) ≤ 3 }
    requires short { length voters.now ≤ 7 }
    ensures { IfOk result (λ dissent. dissent ≡ dissenters 0 voters.now) }
{
    let mut dissent = Dissent::new(alloc);
    'voters: for index in 0..voters.len() {
        add_dissenter(&mut dissent, index as u32, voters[index].left)?;
    }
    Ok(dissent)
}

/// Adds a copy, if it left.
fn add_dissenter(dissent: &mut Dissent, copy: u32, left: Option<u32>) -> Result<(), AllocError>
    requires { length dissent.old + length (dissenter left copy) ≤ 3 }
    ensures { OnOk result (dissent.new ≡ dissent.old ++ dissenter left copy) }
{
    match left {
        Some(row) => dissent.push(Dissenter { copy, row }),
        None => Ok(()),
    }
}
