//! The trait of slots: open inputs that are read piece by piece.
ghost use Rattle.std.specs.Prelude.{◌≡◌, ℕ, ◌<◌, ◌≤◌, List, length, IfOk, OnErr};
ghost use Rattle.det_io.specs.Count.{Rose};
ghost use Rattle.det_io.specs.Shelf.{ShelfState, Reads, moved, IsAtEnd};

use crate::ShelfFailed;

/// Open inputs, numbered from 0. Each is read once, from its first byte to its last.
///
/// `sees` is a state as contracts see it: the numbers of slots and of faults. Where they are known,
/// it also has the bytes under names, the names asked for and the rest of each slot. `stays`
/// relates the states before and after calls of this trait and of `Shelf`. A shelf over another
/// object states in it what those calls leave unchanged.
pub trait Slots {
    ghost sees: { Self → ShelfState };

    ghost stays: { Self → Self → Type 0 };

    /// Moves the next bytes of a slot to the front of the buffer and returns their number. 0 is the
    /// end of the slot, unless the buffer is empty. It needs no memory, since the caller lends the
    /// buffer, so only a fault can make it fail.
    fn read(&mut self, slot: u32, buf: &mut [u8]) -> Result<usize, ShelfFailed>
        requires { slot < (sees self.old).slots }
        ensures within { IfOk result (λ n. n ≤ length buf.old) }
        ensures reads { Reads (sees self.old) (sees self.new) slot (moved result buf.new) }
        ensures end { IfOk result (λ n. n ≡ 0 → 0 < length buf.old → IsAtEnd (sees self.new) slot) }
        ensures cause { OnErr result (Rose (sees self.old).faults (sees self.new).faults) }
        ensures counted { (sees self.old).faults ≤ (sees self.new).faults }
        ensures stays { stays self.old self.new };

    ghost stays_same: { (s : Self) → stays s s };

    ghost stays_on: { (a b c : Self) → stays a b → stays b c → stays a c };
}
