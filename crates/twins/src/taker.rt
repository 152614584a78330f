//! `Taker`: the side that takes the rows of all copies.
ghost use Rattle.std.specs.Prelude.{◌≡◌, ◌+◌, ◌<◌, ◌++◌, ◌∷◌, []};
ghost use Rattle.twins.specs.Intakes.{IsIntakeOf, rows_in};

use frame_queue::{FrameQueue, Receiver, Row};
use std::sync::Wait;

/// The end from which the rows of one copy are taken.
#[derive(Drop)]
pub(crate) struct Intake {
    pub(crate) receiver: Receiver,
    /// The number of rows that were taken.
    pub(crate) rows: u32,
}

impl Intake {
    /// Takes the next row of its copy.
    pub(crate) fn take<R: Wait>(&mut self, rt: &R, queue: &FrameQueue) -> Row
        requires queue { IsIntakeOf queue.now self.old }
        requires room { self.old.rows < 4294967295 }
        ensures queue { IsIntakeOf queue.now self.new }
        ensures taken { rows_in self.new ≡ rows_in self.old ++ result ∷ [] }
        ensures rows { self.new.rows ≡ self.old.rows + 1 }
    {
        self.rows += 1;
        queue.take(rt, &mut self.receiver)
    }
}

/// The ends of all copies. The same number of rows was taken of each.
#[derive(Drop)]
pub(crate) struct Taker {
    pub(crate) intakes: Vec<Intake>,
    /// The number of rows that were taken of each copy.
    pub(crate) rows: u32,
}
