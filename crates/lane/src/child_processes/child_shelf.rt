//! `ChildShelf`, so that copies can be compared while children still write them.
use crate::child_processes::Spawner;
use det_io::{ShelfFailed, Slots};

/// The children of a spawner: slot k is the output of child k.
#[derive(Drop)]
pub struct ChildShelf<P> {
    pub spawner: P,
}

impl<P: Spawner> Slots for ChildShelf<P> {
    ghost use Rattle.lane.specs.child_processes.ChildShelves.{shelf_state, ShelfStays};
    ghost use Rattle.lane.specs.child_processes.ChildShelves.{stays_same as same, stays_on as on};

    ghost sees = { λ s. shelf_state (P.sees s.spawner) };

    ghost stays = { λ a b. ShelfStays (P.sees a.spawner) (P.sees b.spawner) };

    ghost stays_same = { λ s. same (P.sees s.spawner) };

    ghost stays_on = { λ a b c p q. on p q };

    fn read(&mut self, slot: u32, buf: &mut [u8]) -> Result<usize, ShelfFailed> {
        self.spawner.read(slot, buf).map_err(|_| ShelfFailed)
    }
}
