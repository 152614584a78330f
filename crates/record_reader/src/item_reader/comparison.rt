//! Compares the next item of a record with an item of another record. Equal items are passed
//! without being held, so this is apart from `next`.
ghost use Rattle.std.specs.Prelude.{◌≡◌, ◌≤◌, ◌<◌, ◌+◌, ◌++◌, length, take};

use crate::item_reader::ItemReader;
use det_io::{Failure, Slots, Stopped};
use record_grammar::{Place, RecordFault};
use record_view::{ItemView, events_at, place_after};
use std::alloc::AllocError;

/// The result of comparing the next item with an item of another record.
#[derive(Clone, Copy, Drop)]
pub enum Comparison {
    /// The items are equal.
    Same,
    /// The next item is another one, or the record is whole and has no more.
    Other(Option<ItemView>),
}

/// How the next bytes compare with those of an item.
#[derive(Clone, Copy, Drop)]
enum Front {
    /// They begin with all of them.
    Whole,
    /// A byte differs.
    Differs,
    /// The slot ends before the item does.
    Ends,
}

impl ItemReader {
    ghost use Rattle.std.specs.Prelude.{ℕ, List, [], Option, Some, None, Ok, Err, OnOk, ◌↔◌};
    ghost use Rattle.std.specs.Prelude.{IsTrue};
    ghost use Rattle.det_io.specs.Shelf.{IsAtEnd};
    ghost use Rattle.det_io.specs.Traffic.{ShelfTraffic, shelf_run, failure_of, failure_in};
    ghost use Rattle.record_grammar.specs.declared.record_fault.RecordFault.{RecordFault};
    ghost use Rattle.record_grammar.specs.declared.item.Item.{Item};
    ghost use Rattle.record_view.specs.Shows.{IsSpelling, events_of};
    ghost use Rattle.record_reader.specs.item_reader.Held.{held, Matched};
    ghost use Rattle.record_reader.specs.item_reader.StandsFor.{StandsFor, HasRead, fault_of};
    ghost use Rattle.record_reader.specs.item_reader.StandsFor.{slot_of, place_of};
    ghost use Rattle.record_reader.specs.item_reader.StandsFor.{IfGoing, Repeats, room};
    ghost use Rattle.record_reader.specs.item_reader.Comparison.{ComparisonIs, OtherIs};
    ghost use Rattle.record_reader.specs.item_reader.Comparison.{ComparisonFell};
    ghost use Rattle.record_reader.specs.item_reader.Fronts.{Begins, Aside, Passed, Compared};

    /// Compares the next item with the one of these bytes, which another reader returned in the
    /// same place. An equal item is passed: it counts as returned, but its bytes are compared as
    /// they come, and none is held. Another item is returned as by `next`. After `OutOfMemory` the
    /// reader must not be used again.
    pub fn compare_next<S: Slots>(
        &mut self,
        view: ItemView,
        bytes: &[u8],
        shelf: &mut S,
    ) -> Result<Comparison, Stopped<RecordFault>>
        requires slot { slot_of self.old < (S.sees shelf.old).slots }
        requires spelled { (item : Item) × IsSpelling view item bytes.now }
        ensures like { HasRead (S.sees shelf.old) (S.sees shelf.new) self.old
            (ComparisonIs result view bytes.now (place_of self.old) self.new
            (IsAtEnd (S.sees shelf.new) (slot_of self.old))) }
        // Each item lowers the number of items that may come.
        ensures room { IfGoing self.old (ComparisonFell result (room self.old) (room self.new)) }
        ensures slot { slot_of self.new ≡ slot_of self.old }
        ensures again { Repeats result self.old self.new (S.sees shelf.old) (S.sees shelf.new) }
        ensures traffic { ShelfTraffic (shelf_run S.sees S.stays shelf.old shelf.new)
            (failure_in result) }
    {
        if !self.goes_on_at(view.place) {
            return self.next_uncompared(shelf);
        }
        match self.compare(bytes, shelf)? {
            Front::Whole => {
                self.place = place_after(view.place, view.span.kind);
                Ok(Comparison::Same)
            }
            Front::Differs => self.next_uncompared(shelf),
            Front::Ends => match self.finish() {
                Ok(()) => Ok(Comparison::Other(None)),
                Err(fault) => Err(Stopped::Refused(fault)),
            },
        }
    }

    /// Whether no fault was returned, and the next item may come in this place.
    fn goes_on_at(&self, place: Place) -> bool
        ensures is { IsTrue result ↔ ((fault_of self.now ≡ None) × (place_of self.now ≡ place)) }
        ensures few { events_of place ≤ 65536 }
    {
        let _events = events_at(place);
        self.fault.is_none() && self.place == place
    }

    /// The next item, without a comparison.
    fn next_uncompared<S: Slots>(
        &mut self,
        shelf: &mut S,
    ) -> Result<Comparison, Stopped<RecordFault>>
        requires { slot_of self.old < (S.sees shelf.old).slots }
        ensures other { HasRead (S.sees shelf.old) (S.sees shelf.new) self.old
            (OtherIs result self.new (IsAtEnd (S.sees shelf.new) (slot_of self.old))) }
        ensures room { IfGoing self.old (ComparisonFell result (room self.old) (room self.new)) }
        ensures slot { slot_of self.new ≡ slot_of self.old }
        ensures again { Repeats result self.old self.new (S.sees shelf.old) (S.sees shelf.new) }
        ensures traffic { ShelfTraffic (shelf_run S.sees S.stays shelf.old shelf.new)
            (failure_in result) }
    {
        match self.next(shelf) {
            Ok(row) => Ok(Comparison::Other(row)),
            Err(stop) => Err(stop),
        }
    }

    /// Compares the next bytes with these as they come. If all are equal, they are dropped;
    /// otherwise all bytes that were read are held.
    fn compare<S: Slots>(&mut self, bytes: &[u8], shelf: &mut S) -> Result<Front, Failure>
        requires { slot_of self.old < (S.sees shelf.old).slots }
        ensures compared { Compared result bytes.now (S.sees shelf.old) (S.sees shelf.new)
            self.old self.new }
        ensures traffic { ShelfTraffic (shelf_run S.sees S.stays shelf.old shelf.new)
            (failure_of result) }
    {
        self.forget_last();
        let (matched, front) = self.pass_front(bytes, shelf);
        if matched == bytes.len() {
            return front;
        }
        self.put_back(&bytes[..matched])?;
        front
    }

    /// Drops the next bytes as long as they are equal to these, and counts them.
    fn pass_front<S: Slots>(
        &mut self,
        bytes: &[u8],
        shelf: &mut S,
    ) -> (usize, Result<Front, Failure>)
        requires slot { slot_of self.old < (S.sees shelf.old).slots }
        requires begins { Begins self.old }
        ensures within { result.0 ≤ length bytes.now }
        ensures passed { Passed result.1 bytes.now result.0 (S.sees shelf.old) (S.sees shelf.new)
            self.old self.new }
        ensures traffic { ShelfTraffic (shelf_run S.sees S.stays shelf.old shelf.new)
            (failure_of result.1) }
    {
        let mut matched = 0;
        'pieces: loop {
            matched = self.pass_equal(bytes, matched);
            if matched == bytes.len() {
                return (matched, Ok(Front::Whole));
            }
            if self.window.len() > 0 {
                return (matched, Ok(Front::Differs));
            }
            match self.read_piece(shelf) {
                Ok(0) => return (matched, Ok(Front::Ends)),
                Ok(_) => (),
                Err(failure) => return (matched, Err(failure)),
            }
        }
    }

    /// Drops held bytes as long as they are equal to those of `bytes` from `matched` on. Returns
    /// the new number of matched bytes.
    fn pass_equal(&mut self, bytes: &[u8], matched: usize) -> usize
        requires matched { matched ≤ length bytes.now }
        requires begins { Begins self.old }
        ensures matched { Matched bytes.now matched result (held self.old.window)
            (held self.new.window) }
        ensures before { self.new.before + matched ≡ self.old.before + result }
        ensures aside { Aside self.old self.new }
    {
        let equal = self.window.skip_equal(bytes, matched);
        self.before += (equal - matched) as u64;
        equal
    }

    /// Holds bytes again that were dropped.
    fn put_back(&mut self, bytes: &[u8]) -> Result<(), AllocError>
        requires before { length bytes.now ≤ self.old.before }
        requires begins { Begins self.old }
        ensures held { OnOk result (held self.new.window ≡ bytes.now ++ held self.old.window) }
        ensures before { OnOk result (self.new.before + length bytes.now ≡ self.old.before) }
        ensures aside { Aside self.old self.new }
    {
        self.window.put_front(bytes)?;
        self.before -= bytes.len() as u64;
        Ok(())
    }
}
