//! The trait of shelves: inputs that are opened by name. It is apart from `Slots`, so that a reader
//! of one slot can't open another.
ghost use Rattle.std.specs.Prelude.{◌≡◌, ◌≤◌, ◌∷◌, [], Some, IfOk, OnErr};
ghost use Rattle.det_io.specs.Count.{Rose};
ghost use Rattle.det_io.specs.Shelf.{Asks, Opens, SlotsStay};
ghost use Rattle.det_io.specs.Traffic.{failure_of};

use crate::{Failure, Slots};

/// Opens names into slots.
pub trait Shelf: Slots {
    /// Opens a name and returns its slot. A name that is opened twice has two slots, each with its
    /// own position.
    fn open_input(&mut self, name: &str) -> Result<u32, Failure>
        ensures opens { IfOk result (Opens (Self.sees self.old) (Self.sees self.new) name.now) }
        ensures slots { OnErr result (SlotsStay (Self.sees self.old) (Self.sees self.new)) }
        ensures holds { (Self.sees self.new).holds ≡ (Self.sees self.old).holds }
        ensures asked { Asks (Self.sees self.old) (Self.sees self.new) (name.now ∷ []) }
        ensures cause { failure_of result ≡ Some Failure.Read
            → Rose (Self.sees self.old).faults (Self.sees self.new).faults }
        ensures writes_nothing { failure_of result ≡ Some Failure.Write → ⊥ }
        ensures counted { (Self.sees self.old).faults ≤ (Self.sees self.new).faults }
        ensures stays { Self.stays self.old self.new };
}
