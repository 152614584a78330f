//! Reads a row of each copy, one copy after another, and compares it with the row of copy 0.
ghost use Rattle.std.specs.Prelude.{◌≡◌, ℕ, ◌<◌, ◌≤◌, List, [], IfOk, map, length};
ghost use Rattle.std.specs.Prelude.{Option, Some};
ghost use Rattle.det_io.specs.Shelf.{ShelfState};
ghost use Rattle.det_io.specs.Traffic.{ShelfTraffic, shelf_run, failure_in};
ghost use Rattle.record_grammar.specs.declared.item.Item.{Item};
ghost use Rattle.record_reader.specs.item_reader.StandsFor.{IfGoing, slot_of, room};
ghost use Rattle.copies.specs.CompareCopies.{AreDifferent, AreGiven, ReadsAmong};
ghost use Rattle.copies.specs.Needed.{AllNeeded};
ghost use Rattle.copies.specs.ItemRows.{IsReaderAfter, AreReadersAfter, ReadsRow, IsHeldAs};
ghost use Rattle.copies.specs.ItemRows.{IsSpelledBy};
ghost use Rattle.record_view.specs.Shows.{IsSpelling};
ghost use Rattle.copies.specs.Copies.{row_of, copy_answer, CopyNext, CopyLike, CopyHeld};
ghost use Rattle.copies.specs.Copies.{RoomFellIf, OthersRead};

use crate::difference_verdict::{Place, difference_at, difference_verdict, end_difference};
use crate::{BadCopy, Difference, Verdict};
use det_io::{Slots, Stopped};
use record_grammar::RecordFault;
use record_reader::item_reader::{Comparison, ItemReader};
use record_view::ItemView;
use std::alloc::{AllocError, Global};

/// One reader for each slot, in order.
pub fn readers_at(alloc: Global, slots: &[u32]) -> Result<Vec<ItemReader>, AllocError>
    ensures { IfOk result (λ readers. (state : ShelfState)
        → AreReadersAfter state state [] slots.now readers.items) }
{
    let mut readers = Vec::new(alloc);
    'slots: for slot in slots {
        if readers.push(ItemReader::new(alloc, *slot)).is_err() {
            return Err(AllocError);
        }
    }
    Ok(readers)
}

/// The next item of a copy. None after the last item of a whole record.
pub fn next_of_copy<S: Slots>(
    reader: &mut ItemReader,
    shelf: &mut S,
    copy: u32,
) -> Result<Option<ItemView>, Stopped<BadCopy>>
    requires { slot_of reader.old < (S.sees shelf.old).slots }
    ensures row { (first : ShelfState) (given : List Item) (slot : ℕ)
        → IsReaderAfter first (S.sees shelf.old) given slot reader.old
        → CopyNext result copy first (S.sees shelf.new) given slot reader.new }
    ensures room { IfGoing reader.old (RoomFellIf result (room reader.old) (room reader.new)) }
    ensures read { ReadsRow (S.sees shelf.old) (S.sees shelf.new) reader.old reader.new }
    ensures traffic { ShelfTraffic (shelf_run S.sees S.stays shelf.old shelf.new)
        (failure_in result) }
{
    with_copy_number(copy, reader.next(shelf))
}

/// Adds the number of the copy to a fault of its record.
fn with_copy_number<T>(
    copy: u32,
    answer: Result<T, Stopped<RecordFault>>,
) -> Result<T, Stopped<BadCopy>>
    ensures { result ≡ copy_answer copy answer }
{
    match answer {
        Ok(row) => Ok(row),
        Err(Stopped::Refused(fault)) => Err(Stopped::Refused(BadCopy { copy, fault })),
        Err(Stopped::Failed(failure)) => Err(Stopped::Failed(failure)),
    }
}

/// The next row of a copy, compared with an item of copy 0 by its bytes.
fn compare_next_item<S: Slots>(
    reader: &mut ItemReader,
    shelf: &mut S,
    copy: u32,
    view: ItemView,
    bytes: &[u8],
) -> Result<Comparison, Stopped<BadCopy>>
    requires slot { slot_of reader.old < (S.sees shelf.old).slots }
    requires item { (item : Item) × IsSpelling view item bytes.now }
    ensures like { (first : ShelfState) (given : List Item) (slot : ℕ) (item : Item)
        → IsReaderAfter first (S.sees shelf.old) given slot reader.old
        → IsSpelling view item bytes.now
        → CopyLike result copy item first (S.sees shelf.new) given slot reader.new }
    ensures read { ReadsRow (S.sees shelf.old) (S.sees shelf.new) reader.old reader.new }
    ensures traffic { ShelfTraffic (shelf_run S.sees S.stays shelf.old shelf.new)
        (failure_in result) }
{
    with_copy_number(copy, reader.compare_next(view, bytes, shelf))
}

/// The bytes of the item that a reader gave last. Empty where it gave the end.
pub fn item_bytes(reader: &ItemReader, item: Option<ItemView>) -> &[u8]
    requires { (row : Option Item) × IsHeldAs item reader.now row }
    ensures { (row : Option Item) → IsHeldAs item reader.now row
        → IsSpelledBy item result.now row }
{
    match item {
        Some(view) => reader.bytes(view),
        None => &[],
    }
}

/// Reads a row of a copy, and compares it with the row of copy 0: the item of these bytes, or the
/// end of a whole record.
fn compare_row<S: Slots>(
    reader: &mut ItemReader,
    shelf: &mut S,
    place: Place,
    item: Option<ItemView>,
    bytes: &[u8],
) -> Result<Option<Difference>, Stopped<BadCopy>>
    requires slot { slot_of reader.old < (S.sees shelf.old).slots }
    requires behind { (first : ShelfState) × (given : List Item) × (slot : ℕ)
        × IsReaderAfter first (S.sees shelf.old) given slot reader.old }
    requires item { (row : Option Item) × IsSpelledBy item bytes.now row }
    ensures row { (first : ShelfState) (given : List Item) (slot : ℕ) (row : Option Item)
        → IsReaderAfter first (S.sees shelf.old) given slot reader.old
        → IsSpelledBy item bytes.now row → place.row ≡ length given
        → CopyHeld result place.copy (row_of row) first (S.sees shelf.new) given slot reader.new }
    ensures read { ReadsRow (S.sees shelf.old) (S.sees shelf.new) reader.old reader.new }
    ensures traffic { ShelfTraffic (shelf_run S.sees S.stays shelf.old shelf.new)
        (failure_in result) }
{
    match item {
        Some(view) => compare_item(reader, shelf, place, view, bytes),
        None => {
            let next = next_of_copy(reader, shelf, place.copy)?;
            Ok(end_difference(place.row, next))
        }
    }
}

/// Reads a row of a copy, and compares it with the item of these bytes in copy 0.
fn compare_item<S: Slots>(
    reader: &mut ItemReader,
    shelf: &mut S,
    place: Place,
    view: ItemView,
    bytes: &[u8],
) -> Result<Option<Difference>, Stopped<BadCopy>>
    requires slot { slot_of reader.old < (S.sees shelf.old).slots }
    requires behind { (first : ShelfState) × (given : List Item) × (slot : ℕ)
        × IsReaderAfter first (S.sees shelf.old) given slot reader.old }
    requires item { (item : Item) × IsSpelling view item bytes.now }
    ensures row { (first : ShelfState) (given : List Item) (slot : ℕ) (item : Item)
        → IsReaderAfter first (S.sees shelf.old) given slot reader.old
        → IsSpelling view item bytes.now → place.row ≡ length given
        → CopyHeld result place.copy (row_of (Some item)) first (S.sees shelf.new) given slot
        reader.new }
    ensures read { ReadsRow (S.sees shelf.old) (S.sees shelf.new) reader.old reader.new }
    ensures traffic { ShelfTraffic (shelf_run S.sees S.stays shelf.old shelf.new)
        (failure_in result) }
{
    let like = compare_next_item(reader, shelf, place.copy, view, bytes)?;
    Ok(difference_at(place.row, view, bytes, like, reader))
}

/// Reads a row of each copy after copy 0, and finds the least copy that differs. The row of copy 0
/// is the item of these bytes, or the end of a whole record.
pub fn compare_others<S: Slots>(
    readers: &mut [ItemReader],
    shelf: &mut S,
    row: u32,
    item: Option<ItemView>,
    bytes: &[u8],
) -> Result<Option<Verdict>, Stopped<BadCopy>>
    requires given { AreGiven (S.sees shelf.old) (map slot_of readers.old) }
    requires few { length readers.old ≤ 7 }
    requires stand { (first : ShelfState) × (given : List Item) × (slots : List ℕ)
        × AreDifferent slots × AreReadersAfter first (S.sees shelf.old) given slots readers.old
        × (row ≡ length given) }
    requires item { (ours : Option Item) × IsSpelledBy item bytes.now ours }
    ensures others { (first : ShelfState) (given : List Item) (slots : List ℕ)
        (ours : Option Item) → IsSpelledBy item bytes.now ours
        → AreDifferent slots → AreReadersAfter first (S.sees shelf.old) given slots readers.old
        → row ≡ length given
        → OthersRead result (row_of ours) first (S.sees shelf.new) given slots readers.new }
    ensures needed { (first : ShelfState) (given : List Item) (slots : List ℕ)
        (ours : Option Item) → IsSpelledBy item bytes.now ours
        → AreDifferent slots → AreReadersAfter first (S.sees shelf.old) given slots readers.old
        → row ≡ length given → AllNeeded first (S.sees shelf.new) (length given) slots }
    ensures reads { ReadsAmong (S.sees shelf.old) (S.sees shelf.new) (map slot_of readers.old) }
    ensures slots { map slot_of readers.new ≡ map slot_of readers.old }
    ensures traffic { ShelfTraffic (shelf_run S.sees S.stays shelf.old shelf.new)
        (failure_in result) }
{
    let mut found = None;
    'others: for index in 0..readers.len() {
        let copy = index as u32 + 1;
        let place = Place { copy, row };
        let difference = compare_row(&mut readers[index], shelf, place, item, bytes)?;
        found = found.or(difference_verdict(copy, difference));
    }
    Ok(found)
}
