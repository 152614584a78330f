//! Equality of items, by their bytes.
ghost use Rattle.std.specs.Prelude.{◌≡◌, ◌↔◌, IsTrue};
ghost use Rattle.record_grammar.specs.declared.item.Item.{Item};
ghost use Rattle.record_grammar.specs.Spelling.{AreBytes};
ghost use Rattle.record_view.specs.Shows.{IsSpelling};

use crate::next_place::events_at;
use crate::view::ItemView;

/// Whether two items in the same place of their records are equal. They are exactly where their
/// bytes are, since an item has one spelling.
pub fn are_equal_items(one: ItemView, one_bytes: &[u8], other: ItemView, other_bytes: &[u8]) -> bool
    requires place { one.place ≡ other.place }
    requires items { (a b : Item) × IsSpelling one a one_bytes.now
        × IsSpelling other b other_bytes.now }
    ensures { (a b : Item) → IsSpelling one a one_bytes.now → IsSpelling other b other_bytes.now
        → IsTrue result ↔ (a ≡ b) }
{
    let _events = events_at(one.place);
    same_bytes(one_bytes, other_bytes)
}

/// Whether two slices have the same bytes. The clause `bytes` says that their elements are bytes,
/// which the caller's proof needs.
fn same_bytes(one: &[u8], other: &[u8]) -> bool
    ensures same { IsTrue result ↔ (one.now ≡ other.now) }
    ensures bytes { AreBytes one.now × AreBytes other.now }
{
    one == other
}
