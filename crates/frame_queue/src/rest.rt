//! `Rest`: the rows that are left in a queue that was closed.
ghost use Rattle.std.specs.Prelude.{◌≡◌, ◌∷◌, [], MatchOption};

use crate::Row;
use crate::queue::Rows;
use crate::rule::{Drains, QueueView};
use crossbeam_queue::Pass;
use std::marker::Model;
use std::sync::Wait;

/// The rows that were sent to a closed queue and not taken, in order. In contracts it is the list
/// of them.
#[derive(Drop)]
pub struct Rest {
    pub(crate) rows: Rows,
    pub(crate) pass: Pass<Row, QueueView>,
}

impl Model for Rest {
    ghost use Rattle.std.specs.Prelude.{◌≡◌, List, true};
    ghost use Rattle.crossbeam_queue.specs.Passes.{IsPassOf, view as view_of};
    ghost use Rattle.frame_queue.specs.declared.row.Row.{Row};
    ghost use Rattle.frame_queue.specs.Order.{IsTotal, left_of};

    ghost Value = { List Row };

    ghost view = { λ r. left_of (view_of r.pass) };

    ghost invariant = { λ r. IsPassOf r.rows r.pass
        × ((view_of r.pass).sends ≡ true) × ((view_of r.pass).takes ≡ true)
        × IsTotal (view_of r.pass) (left_of (view_of r.pass)) };
}

impl Rest {
    /// The next row. None if there is none left.
    pub fn next<R: Wait>(&mut self, rt: &R) -> Option<Row>
        ensures { MatchOption result ((self.old ≡ []) × (self.new ≡ []))
            (λ row. self.old ≡ row ∷ self.new) }
    {
        self.rows.pop_as::<Drains, R>(rt, &mut self.pass)
    }
}
