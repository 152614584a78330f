//! Records in slots, opened by their header and then read frame by frame.
ghost use Rattle.std.specs.Prelude.{◌≡◌, ◌<◌, ◌∷◌, [], ℕ, List, Option, Some};
ghost use Rattle.det_values.specs.Values.{ProfileValue};
ghost use Rattle.det_io.specs.Traffic.{ShelfTraffic, shelf_run, failure_in};
ghost use Rattle.record_grammar.specs.declared.item.Item.TheVariants as items;
ghost use Rattle.record_view.specs.Shows.{item_view};
ghost use Rattle.record_view.specs.declared.view.FrameKind.{FrameKind};
ghost use Rattle.record_view.specs.declared.view.ItemKind.TheVariants as kinds;
ghost use Rattle.record_reader.specs.Frames.{IsHeader, HasOpened};

use crate::item_reader::ItemReader;
use det_io::{Failure, Slots, Stopped};
use det_values::Profile;
use record_codec::decode_profile;
use record_grammar::RecordFault;
use record_view::{FrameView, ItemView};
use std::alloc::Global;

/// A record whose header was read. `frames` gives only frames, so no later call has a case for a
/// header.
#[derive(Drop)]
pub struct OpenRecord {
    pub profile: Profile,
    /// The frames after the header.
    pub frames: FrameReader,
}

/// Opens the record in a slot: reads its header, and at most one piece of 65,536 bytes beyond it.
/// `Refused` has the fault of a record that has no whole header.
pub fn open_record<S: Slots>(
    alloc: Global,
    slot: u32,
    shelf: &mut S,
) -> Result<OpenRecord, Stopped<RecordFault>>
    requires { slot < (S.sees shelf.old).slots }
    ensures opened { HasOpened (S.sees shelf.old) (S.sees shelf.new) slot result }
    ensures traffic { ShelfTraffic (shelf_run S.sees S.stays shelf.old shelf.new)
        (failure_in result) }
    ensures writes_nothing { failure_in result ≡ Some Failure.Write → ⊥ }
{
    let mut items = ItemReader::new(alloc, slot);
    let header = header_in(items.next(shelf)?);
    let profile = decode_profile(alloc, header, items.bytes(header))?;
    let frames = FrameReader { items };
    Ok(OpenRecord { profile, frames })
}

/// The first item of a record, which is its header.
fn header_in(first: Option<ItemView>) -> ItemView
    requires { IsHeader first }
    ensures { first ≡ Some result }
{
    match first {
        Some(header) => header,
        None => unreachable!(),
    }
}

/// An item that isn't the header.
fn frame_in(item: ItemView) -> FrameView
    requires { (kind : FrameKind) × (item.span.kind ≡ kinds.Frame kind) }
    ensures { item_view result ≡ item }
{
    match item.as_frame() {
        Some(frame) => frame,
        None => unreachable!(),
    }
}

/// Reads the frames of the record in a slot, and returns each as a view of bytes that it holds. It
/// holds the last frame and one piece of 65,536 bytes.
#[derive(Drop)]
pub struct FrameReader {
    items: ItemReader,
}

impl FrameReader {
    ghost use Rattle.det_io.specs.Shelf.{IsAtEnd};
    ghost use Rattle.det_values.specs.declared.frames.Frame.{Frame};
    ghost use Rattle.record_grammar.specs.declared.record_fault.RecordFault.{RecordFault};
    ghost use Rattle.record_grammar.specs.declared.item.Item.{Item};
    ghost use Rattle.record_view.specs.Shows.{IsFrameSpelling};
    ghost use Rattle.record_reader.specs.Frames.{StandsFor, HasRead, FrameIs, RoomFell, Holds};
    ghost use Rattle.record_reader.specs.Frames.{GaveView, IfGoing, Repeats, slot_of, room};

    /// The next frame, or None at the end of a slot with a whole record. `Refused` has the record's
    /// fault, and every later call returns it again. After a failed read the call can be repeated.
    /// After `OutOfMemory` the reader must not be used again.
    pub fn next<S: Slots>(
        &mut self,
        shelf: &mut S,
    ) -> Result<Option<FrameView>, Stopped<RecordFault>>
        requires slot { slot_of self.old < (S.sees shelf.old).slots }
        // The header was read, and maybe frames.
        requires headed { (profile : ProfileValue) × (read : List ℕ) × (after : List Item)
            × StandsFor self.old read (items.Header profile ∷ after) }
        ensures frame { HasRead (S.sees shelf.old) (S.sees shelf.new) self.old
            (FrameIs result self.new (IsAtEnd (S.sees shelf.new) (slot_of self.old))) }
        ensures held { GaveView result self.new }
        // Each frame lowers the number of frames that may come.
        ensures room { IfGoing self.old (RoomFell result (room self.old) (room self.new)) }
        ensures slot { slot_of self.new ≡ slot_of self.old }
        ensures again { Repeats result self.old self.new (S.sees shelf.old) (S.sees shelf.new) }
        ensures traffic { ShelfTraffic (shelf_run S.sees S.stays shelf.old shelf.new)
            (failure_in result) }
    {
        match self.items.next(shelf)? {
            Some(item) => Ok(Some(frame_in(item))),
            None => Ok(None),
        }
    }

    /// The bytes of the last frame: its only spelling.
    pub fn bytes(&self, view: FrameView) -> &[u8]
        requires { (frame : Frame) × Holds self.now view frame }
        ensures { (frame : Frame) → Holds self.now view frame
            → IsFrameSpelling view frame result.now }
    {
        self.items.bytes(view.as_item())
    }
}
