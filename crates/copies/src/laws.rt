//! Laws of comparing, as contracts of empty functions.
ghost use Rattle.std.specs.Prelude.{◌≡◌};
ghost use Rattle.std.specs.Bool.{Decides};
ghost use Rattle.copies.specs.Laws.{Agreeing};

use record_grammar::Item;

/// `==` of two items is true exactly where contracts see the same item in both.
pub fn equality()
    ensures { (a b : Item) → Decides (⟦<Item as PartialEq>⟧.eq a b) (a ≡ b) }
{}

/// The verdict is that copies agree exactly where all of them are one whole record, byte for byte.
/// It has the number of its Run frames.
pub fn agreement()
    ensures { Agreeing }
{}
