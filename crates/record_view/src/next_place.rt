//! The place after an item, and what a place says of its record.
ghost use Rattle.std.specs.Prelude.{◌≡◌, ℕ, List, IfSome, IfNone};
ghost use Rattle.det_values.specs.declared.format.Format.TheVariants.{One};
ghost use Rattle.record_grammar.specs.declared.item.Item.{Item};
ghost use Rattle.record_grammar.specs.Places.{after, format_of, CanFollow};
ghost use Rattle.record_view.specs.Shows.{ShowsParts, events_of};

use crate::view::{FrameKind, ItemKind};
use det_values::Format;
use record_grammar::{Layout, Place};

/// The place after an item of this kind in `place`.
pub fn place_after(place: Place, kind: ItemKind) -> Place
    ensures { (item : Item) (len : ℕ) (bytes : List ℕ) → CanFollow place item
        → ShowsParts place kind len bytes item → result ≡ after place item }
{
    match place {
        Place::Header => match kind {
            ItemKind::Header(layout) => Place::Register(layout),
            _ => place,
        },
        Place::Register(layout) => Place::Discover(layout),
        Place::Discover(layout) => Place::Init(layout),
        Place::Init(layout) => Place::Runs(layout, 0),
        Place::Runs(layout, before) => match kind {
            ItemKind::Frame(FrameKind::Run { .. }) => {
                Place::Runs(layout, before.saturating_add(1))
            }
            _ => Place::End,
        },
        Place::End => place,
    }
}

/// What the frames after a place depend on, if frames may follow it.
fn layout_at(place: Place) -> Option<Layout>
    ensures some { IfSome result (λ layout. (layout.events ≡ events_of place)
        × (layout.format ≡ format_of place)) }
    ensures none { IfNone result ((events_of place ≡ 0) × (format_of place ≡ One)) }
{
    match place {
        Place::Register(layout)
        | Place::Discover(layout)
        | Place::Init(layout)
        | Place::Runs(layout, _) => Some(layout),
        Place::Header | Place::End => None,
    }
}

/// The number of events in this record; 0 where no frame follows.
pub fn events_at(place: Place) -> u16
    ensures { result ≡ events_of place }
{
    match layout_at(place) {
        Some(layout) => layout.events,
        None => 0,
    }
}

/// The format of this record; 1 where no frame follows.
pub fn format_at(place: Place) -> Format
    ensures { result ≡ format_of place }
{
    match layout_at(place) {
        Some(layout) => layout.format,
        None => Format::One,
    }
}
