//! An office, the value from which a keeper is made.
ghost use Rattle.std.specs.Prelude.{◌≡◌, []};
ghost use Rattle.tickets.specs.Tickets.{beginning};

use crate::view::{TicketRule, View};
use atomic_table::{Seat, Table};
use std::alloc::{AllocError, Global};

/// The table at which the seats of a keeper and of its tickets are, and the keeper's seat.
#[derive(Drop)]
pub struct Office<T> {
    pub(crate) table: Table<(), View<T>, (), TicketRule, Global>,
    pub(crate) seat: Seat<(), View<T>>,
    ghost sized: { table.shared.table_id.words ≡ 1 },
    ghost here: { seat.table_id ≡ table.shared.table_id },
    ghost first: { seat.me ≡ (beginning, []) },
}

impl<T> Office<T> {
    /// A new office, with a table of one word. Its name is that of the table.
    pub fn new(alloc: Global) -> Result<Office<T>, AllocError> {
        let words = Vec::from_elem(alloc, 0u64, 1)?;
        let (table, seat) = Table::of_words(alloc, words.as_slice(), &())?;
        Ok(Office { table, seat })
    }
}
