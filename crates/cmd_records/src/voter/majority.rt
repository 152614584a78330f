//! Finds the row that more than half of the copies hold.
ghost use Rattle.std.specs.Prelude.{◌≡◌, ◌<◌, ◌≤◌, List, Some, None, cond, length};
ghost use Rattle.std.specs.Prelude.{Option, get_or};
ghost use Rattle.record_grammar.specs.declared.item.Item.{Item};
ghost use Rattle.record_grammar.specs.declared.place.Place.{Place};
ghost use Rattle.record_grammar.specs.contracts.item.ItemPartialEq.TheImpl as item;
ghost use Rattle.copies.specs.declared.row.Row.{Row};
ghost use Rattle.copies.specs.declared.row.Row.TheVariants as rows;
ghost use Rattle.cmd_records.specs.voter.Rows.{same_row, HoldsAt, HoldsRow, AreHeld, AreHolders};
ghost use Rattle.cmd_records.specs.voter.Rows.{MostHeld};
ghost use Rattle.cmd_records.specs.voter.Rows.{voters_after};

use crate::voter::voter_rows::{RowView, Voter};
use record_reader::item_reader::ItemReader;
use record_view::{ItemView, are_equal_items};

/// The copies that hold a row.
#[derive(Clone, Copy, Drop)]
pub struct Holders {
    /// The first copy that holds it.
    pub first: usize,
    /// For each copy, whether it holds the row. No vote has more than seven copies.
    pub same: [bool; 7],
    /// The number of copies that hold it.
    pub count: usize,
}

/// Whether two copies hold equal rows. A fault equals nothing, and a copy that left holds no row.
fn hold_same_row(voter: &Voter, other: &Voter) -> bool
    requires { (place : Place) × (row more : Option Row) × HoldsRow place voter.now row
        × HoldsRow place other.now more }
    ensures { (place : Place) (row more : Option Row) → HoldsRow place voter.now row
        → HoldsRow place other.now more → result ≡ same_row row more }
{
    match voter.row {
        Some(RowView::Item(view)) => holds_item(&voter.reader, view, other),
        Some(RowView::Whole) => holds_record_end(other),
        Some(RowView::Fault) => false,
        None => false,
    }
}

/// Whether a copy holds the item that this reader read last.
fn holds_item(reader: &ItemReader, view: ItemView, other: &Voter) -> bool
    requires { (place : Place) × (x : Item) × (more : Option Row) × HoldsAt place reader.now view x
        × HoldsRow place other.now more }
    ensures { (place : Place) (x : Item) (more : Option Row) → HoldsAt place reader.now view x
        → HoldsRow place other.now more → result ≡ same_row (Some (rows.Item x)) more }
{
    match other.row {
        Some(RowView::Item(other_view)) => {
            hold_same_item(reader, view, &other.reader, other_view)
        }
        Some(RowView::Whole) => false,
        Some(RowView::Fault) => false,
        None => false,
    }
}

fn holds_record_end(other: &Voter) -> bool
    ensures { (place : Place) (more : Option Row) → HoldsRow place other.now more
        → result ≡ same_row (Some rows.Whole) more }
{
    match other.row {
        Some(RowView::Whole) => true,
        Some(RowView::Item(_)) => false,
        Some(RowView::Fault) => false,
        None => false,
    }
}

/// Whether two readers read equal items last, at the same place.
fn hold_same_item(
    reader: &ItemReader,
    view: ItemView,
    other: &ItemReader,
    other_view: ItemView,
) -> bool
    requires { (place : Place) × (x y : Item) × HoldsAt place reader.now view x
        × HoldsAt place other.now other_view y }
    ensures { (place : Place) (x y : Item) → HoldsAt place reader.now view x
        → HoldsAt place other.now other_view y → result ≡ item.eq-value.it x y }
{
    are_equal_items(
        view,
        reader.bytes(view),
        other_view,
        other.bytes(other_view),
    )
}

/// Whether a copy holds a row that can equal another one.
fn can_win_majority(voter: &Voter) -> bool
    ensures { (place : Place) (row : Option Row) → HoldsRow place voter.now row
        → result ≡ same_row row row }
{
    match voter.row {
        Some(RowView::Item(_)) => true,
        Some(RowView::Whole) => true,
        Some(RowView::Fault) => false,
        None => false,
    }
}

/// Whether two copies hold equal rows, by their places. No row is compared with itself.
fn holds_row_of_copy(voters: &[Voter], first: usize, at: usize) -> bool
    requires first { first < length voters.now }
    requires at { at < length voters.now }
    requires rows { (place : Place) × (more : List (Option Row)) × AreHeld place voters.now more }
    ensures { (place : Place) (more : List (Option Row)) → AreHeld place voters.now more
        → result ≡ same_row (get_or more first None) (get_or more at None) }
{
    if at == first {
        return can_win_majority(&voters[first]);
    }
    hold_same_row(&voters[first], &voters[at])
}

fn vote_if(holds: bool) -> usize
    ensures { result ≡ cond holds 1 0 }
{
    if holds { 1 } else { 0 }
}

/// The copies that hold the row of the copy `first`.
fn holders_of(voters: &[Voter], first: usize) -> Holders
    requires first { first < length voters.now }
    requires few { length voters.now ≤ 7 }
    requires rows { (place : Place) × (more : List (Option Row)) × AreHeld place voters.now more }
    ensures first { result.first ≡ first }
    ensures holders { (place : Place) (more : List (Option Row)) → AreHeld place voters.now more
        → AreHolders result (get_or more first None) more }
{
    let mut same = [false; 7];
    let mut count = 0;
    'voters: for at in 0..voters.len() {
        let holds = holds_row_of_copy(voters, first, at);
        same[at] = holds;
        count += vote_if(holds);
    }
    Holders { first, same, count }
}

/// The copies that hold a row which more than half of all copies hold. None if there is no such
/// row.
pub fn majority_holders(voters: &[Voter]) -> Option<Holders>
    requires few { length voters.now ≤ 7 }
    requires rows { (place : Place) × (more : List (Option Row)) × AreHeld place voters.now more }
    ensures { (place : Place) (more : List (Option Row)) → AreHeld place voters.now more
        → MostHeld result more }
{
    'voters: for first in 0..voters.len() {
        let holders = holders_of(voters, first);
        if voters.len() / 2 < holders.count {
            return Some(holders);
        }
    }
    None
}

/// Marks the copies that don't hold the majority's row as having left in this row, unless they left
/// before.
pub fn mark_leavers(voters: &mut Vec<Voter>, same: &[bool], number: u32)
    requires { length voters.old.items ≤ length same.now }
    ensures voters_after { voters.new.items ≡ voters_after number same.now voters.old.items }
    ensures all { length voters.new.items ≡ length voters.old.items }
{
    'voters: for at in 0..voters.len() {
        voters[at].stay(same[at], number);
    }
}
