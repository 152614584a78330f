//! The difference of two rows, by what the readers of two copies gave. That of two items comes from
//! `item_difference`.
ghost use Rattle.std.specs.Prelude.{◌≡◌};
ghost use Rattle.std.specs.Option.{option_map};
ghost use Rattle.record_grammar.specs.declared.item.Item.{Item};
ghost use Rattle.record_view.specs.Shows.{IsSpelling};
ghost use Rattle.copies.specs.declared.verdict.Verdict.TheVariants.{Differ};
ghost use Rattle.copies.specs.Copies.{DifferenceIs, OtherIsHeld, end_difference};

use crate::item_differences::item_difference;
use crate::{Difference, Verdict};
use record_reader::item_reader::{Comparison, ItemReader};
use record_view::ItemView;

/// The copy whose row is compared with that of copy 0, and the number of the row.
#[derive(Clone, Copy, Drop)]
pub struct Place {
    pub copy: u32,
    pub row: u32,
}

/// The verdict that this copy differs, where its row has a difference from that of copy 0.
pub fn difference_verdict(copy: u32, difference: Option<Difference>) -> Option<Verdict>
    ensures { result ≡ option_map (Differ copy) difference }
{
    match difference {
        Some(at) => Some(Verdict::Differ { copy, at }),
        None => None,
    }
}

/// The difference between an item of copy 0, of these bytes, and the row that another reader gave
/// last. Two items are compared part by part only where their bytes differ.
pub fn difference_at(
    row: u32,
    view: ItemView,
    bytes: &[u8],
    like: Comparison,
    reader: &ItemReader,
) -> Option<Difference>
    requires item { (item : Item) × IsSpelling view item bytes.now }
    requires other { OtherIsHeld like reader.now }
    ensures { (item : Item) → IsSpelling view item bytes.now
        → DifferenceIs result row item like reader.now }
{
    match like {
        Comparison::Same => None,
        Comparison::Other(None) => Some(Difference::Kind(row.saturating_sub(1))),
        Comparison::Other(Some(other)) => {
            item_difference(row, view, bytes, other, reader.bytes(other))
        }
    }
}

/// The difference between the end of copy 0 and the next row of another copy.
pub fn end_difference(row: u32, next: Option<ItemView>) -> Option<Difference>
    ensures { result ≡ end_difference row next }
{
    match next {
        Some(_) => Some(Difference::Kind(row.saturating_sub(1))),
        None => None,
    }
}
