//! The reader of the items of a record in a slot.
ghost use Rattle.std.specs.Prelude.{◌≡◌, ◌≤◌, ◌<◌, ◌^◌, ◌+◌, length};
ghost use Rattle.record_reader.specs.item_reader.Held.{held};

use crate::item_reader::window::{PIECE, Window};
use det_io::{Failure, Slots, Stopped};
use record_grammar::{Place, Reason, RecordFault};
use record_view::{ItemView, Partial, Scan, Step, Stop, events_at, place_after, view_item};
use std::alloc::Global;

/// Reads the items of the record in a slot, and returns each as a view of bytes that it holds. It
/// holds the last item and the bytes read after it, so one item and one piece of 65,536 bytes. A
/// piece is read only if the held bytes have no whole item.
#[derive(Drop)]
pub struct ItemReader {
    pub(crate) slot: u32,
    pub(crate) window: Window,
    /// The length of the last item, with which the window begins.
    pub(crate) last: usize,
    /// How many bytes were dropped. `next` returns `OutOfMemory` before a u64 is too small for the
    /// offset of a byte.
    pub(crate) before: u64,
    pub(crate) place: Place,
    /// How far the item after the last one was read.
    pub(crate) scan: Scan,
    /// The fault, once it was returned.
    pub(crate) fault: Option<RecordFault>,
    ghost in_range: { last + scan.read ≤ length (held window) },
    ghost countable: { before + length (held window) < 2 ^ 64 },
}

/// The result of one step.
enum Progress {
    Item(ItemView),
    /// A piece was read.
    Piece,
    /// The slot ends, and its record is whole.
    End,
}

/// The scan of an item before any of its bytes is read.
pub(crate) fn no_scan() -> Scan
    ensures { result ≡ record { partial = Partial.Nothing; read = 0 } }
{
    Scan {
        partial: Partial::Nothing,
        read: 0,
    }
}

impl ItemReader {
    ghost use Rattle.std.specs.Prelude.{ℕ, List, [], ◌∷◌, ◌++◌, Option, Some, None, Ok, Err};
    ghost use Rattle.det_io.specs.Shelf.{Reads, IsAtEnd};
    ghost use Rattle.det_io.specs.Traffic.{ShelfTraffic, shelf_run, failure_of, failure_in};
    ghost use Rattle.record_grammar.specs.declared.record_fault.RecordFault.{RecordFault};
    ghost use Rattle.record_grammar.specs.Spelling.{AreBytes};
    ghost use Rattle.record_grammar.specs.declared.item.Item.{Item};
    ghost use Rattle.record_view.specs.Shows.{IsSpelling};
    ghost use Rattle.record_reader.specs.item_reader.Held.{Took};
    ghost use Rattle.record_reader.specs.item_reader.StandsFor.{StandsFor, HasRead, ItemIs};
    ghost use Rattle.record_reader.specs.item_reader.StandsFor.{RoomFell, Holds};
    ghost use Rattle.record_reader.specs.item_reader.StandsFor.{fault_of, slot_of, place_of, room};
    ghost use Rattle.record_reader.specs.item_reader.StandsFor.{GaveView, IfGoing, Repeats};
    ghost use Rattle.record_reader.specs.item_reader.Steps.{Forgot, GaveAll, HeldIs, RoomOf};
    ghost use Rattle.record_reader.specs.item_reader.Steps.{KeepsOn, StepIs};
    ghost use Rattle.record_reader.specs.item_reader.Steps.{Shrinks, GoesOn, ReadsOn, FinishIs};
    ghost use Rattle.record_reader.specs.item_reader.Steps.{Scanned};
    ghost use Rattle.record_reader.specs.item_reader.Steps.{ScannedOf, ScannedBy};

    /// A reader of the bytes that a slot still has. It takes no memory, and reads nothing yet.
    pub fn new(alloc: Global, slot: u32) -> ItemReader
        ensures stands { StandsFor result [] [] }
        ensures slot { slot_of result ≡ slot }
    {
        ItemReader {
            slot,
            window: Window::new(alloc),
            last: 0,
            before: 0,
            place: Place::Header,
            scan: Scan {
                partial: Partial::Nothing,
                read: 0,
            },
            fault: None,
        }
    }

    /// The next item, or None at the end of a slot with a whole record. `Refused` has the record's
    /// fault, and every later call returns it again. After a failed read the call can be repeated.
    /// After `OutOfMemory` the reader must not be used again.
    ///
    /// An item that an earlier call read in part is checked from its beginning again. Only a failed
    /// read leaves such a part.
    pub fn next<S: Slots>(
        &mut self,
        shelf: &mut S,
    ) -> Result<Option<ItemView>, Stopped<RecordFault>>
        requires { slot_of self.old < (S.sees shelf.old).slots }
        ensures item { HasRead (S.sees shelf.old) (S.sees shelf.new) self.old
            (ItemIs result self.new (IsAtEnd (S.sees shelf.new) (slot_of self.old))) }
        // The view is of the bytes that are held, whatever was read before.
        ensures held { GaveView result self.new }
        // Each item lowers the number of items that may come.
        ensures room { IfGoing self.old (RoomFell result (room self.old) (room self.new)) }
        ensures slot { slot_of self.new ≡ slot_of self.old }
        ensures again { Repeats result self.old self.new (S.sees shelf.old) (S.sees shelf.new) }
        ensures traffic { ShelfTraffic (shelf_run S.sees S.stays shelf.old shelf.new)
            (failure_in result) }
    {
        if let Some(fault) = self.fault {
            return Err(Stopped::Refused(fault));
        }
        self.forget_last();
        'steps: loop {
            match self.step(shelf)? {
                Progress::Piece => (),
                Progress::Item(view) => return Ok(Some(view)),
                Progress::End => return Ok(None),
            }
        }
    }

    /// The bytes of the last item: its only spelling.
    pub fn bytes(&self, view: ItemView) -> &[u8]
        requires { (item : Item) × Holds self.now view item }
        ensures { (item : Item) → Holds self.now view item → IsSpelling view item result.now }
    {
        let _events = events_at(view.place);
        &self.window.as_slice()[..view.span.len]
    }

    /// The place of the next item.
    pub fn place(&self) -> Place
        ensures { result ≡ place_of self.now }
    {
        self.place
    }

    /// Drops the last item, and forgets how far the next one was read.
    pub(crate) fn forget_last(&mut self)
        ensures { Forgot self.old self.new }
    {
        self.before += self.last as u64;
        self.window.skip(self.last);
        self.last = 0;
        self.scan = no_scan();
    }

    /// Returns an item from the held bytes, or reads a piece.
    fn step<S: Slots>(&mut self, shelf: &mut S) -> Result<Progress, Stopped<RecordFault>>
        requires slot { slot_of self.old < (S.sees shelf.old).slots }
        requires last { self.old.last ≡ 0 }
        requires going { fault_of self.old ≡ None }
        ensures step { HasRead (S.sees shelf.old) (S.sees shelf.new) self.old
            (StepIs result self.new (IsAtEnd (S.sees shelf.new) (slot_of self.old))) }
        ensures scanned { Scanned self.old → ScannedBy result self.new }
        ensures shrinks { IfGoing self.old (Shrinks result (room self.old) (room self.new)) }
        ensures going { GoesOn result self.old self.new }
        ensures slot { slot_of self.new ≡ slot_of self.old }
        ensures traffic { ShelfTraffic (shelf_run S.sees S.stays shelf.old shelf.new)
            (failure_in result) }
    {
        let view = match self.next_held() {
            Ok(view) => view,
            Err(fault) => return Err(Stopped::Refused(fault)),
        };
        match view {
            Some(view) => Ok(Progress::Item(view)),
            None => self.read_on(shelf),
        }
    }

    /// The next item, if the held bytes have it as a whole.
    fn next_held(&mut self) -> Result<Option<ItemView>, RecordFault>
        requires last { self.old.last ≡ 0 }
        requires going { fault_of self.old ≡ None }
        ensures item { (read : List ℕ) (given : List Item) → StandsFor self.old read given
            → HeldIs result self.new read given }
        ensures scanned { Scanned self.old → ScannedOf result self.new }
        ensures room { IfGoing self.old (RoomOf result (room self.old) (room self.new)) }
        ensures keeps { KeepsOn result self.old self.new }
        ensures slot { slot_of self.new ≡ slot_of self.old }
    {
        let place = self.place;
        let Step { scan, answer } = view_item(place, self.scan, self.window.as_slice());
        match answer {
            Ok(span) => {
                self.last = span.len;
                self.place = place_after(place, span.kind);
                self.scan = no_scan();
                Ok(Some(ItemView { place, span }))
            }
            Err(Stop::More) => {
                self.scan = scan;
                Ok(None)
            }
            Err(Stop::Bad { reason, left }) => {
                let fault = RecordFault {
                    offset: self.before + (self.window.len() - left) as u64,
                    reason,
                };
                self.fault = Some(fault);
                Err(fault)
            }
        }
    }

    /// Reads a piece, or finds the end of the slot.
    fn read_on<S: Slots>(&mut self, shelf: &mut S) -> Result<Progress, Stopped<RecordFault>>
        requires slot { slot_of self.old < (S.sees shelf.old).slots }
        requires last { self.old.last ≡ 0 }
        requires going { fault_of self.old ≡ None }
        ensures step { (more : List ℕ)
            × Reads (S.sees shelf.old) (S.sees shelf.new) (slot_of self.old) more
            × ((read : List ℕ) (given : List Item) → GaveAll self.old read given
            → StepIs result self.new (IsAtEnd (S.sees shelf.new) (slot_of self.old))
            (read ++ more) given) × AreBytes more }
        ensures scanned { Scanned self.old → ScannedBy result self.new }
        ensures shrinks { Shrinks result (room self.old) (room self.new) }
        ensures going { GoesOn result self.old self.new }
        ensures slot { slot_of self.new ≡ slot_of self.old }
        ensures traffic { ShelfTraffic (shelf_run S.sees S.stays shelf.old shelf.new)
            (failure_in result) }
    {
        let n = self.read_piece(shelf)?;
        if n > 0 {
            return Ok(Progress::Piece);
        }
        match self.finish() {
            Ok(()) => Ok(Progress::End),
            Err(fault) => Err(Stopped::Refused(fault)),
        }
    }

    /// Reads a piece and returns its length. `OutOfMemory` if more than 2^64 - 1 bytes could have
    /// been read.
    pub(crate) fn read_piece<S: Slots>(&mut self, shelf: &mut S) -> Result<usize, Failure>
        requires { slot_of self.old < (S.sees shelf.old).slots }
        ensures took { Took result (S.sees shelf.old) (S.sees shelf.new) (slot_of self.old)
            (held self.old.window) (held self.new.window) }
        ensures on { ReadsOn self.old self.new }
        ensures traffic { ShelfTraffic (shelf_run S.sees S.stays shelf.old shelf.new)
            (failure_of result) }
    {
        if u64::MAX - self.before - (self.window.len() as u64) < PIECE as u64 {
            return Err(Failure::OutOfMemory);
        }
        self.window.read(self.slot, shelf)
    }

    /// The fault of a record whose slot has no more bytes, or none if it is whole.
    pub(crate) fn finish(&mut self) -> Result<(), RecordFault>
        requires { fault_of self.old ≡ None }
        ensures { FinishIs result self.old self.new }
    {
        if let Place::End = self.place {
            return Ok(());
        }
        let fault = RecordFault {
            offset: self.before + self.window.len() as u64,
            reason: Reason::Truncated,
        };
        self.fault = Some(fault);
        Err(fault)
    }
}
