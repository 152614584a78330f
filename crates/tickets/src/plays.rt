//! The facts that a keeper gets from its steps on the table, in the form that `atomic_table`
//! requires.
use crate::view::View;
use atomic_table::{Join, Play, Split};
use std::marker::{Brand, PhantomData};

/// The work that a step announces. The step has it in a type, since it is a ghost.
pub trait Site<T> {
    ghost use Rattle.std.specs.Prelude.{List};

    ghost work: { List T };
}

impl<T> Site<T> for Brand {
    ghost use Rattle.std.specs.Prelude.{[]};

    ghost work = { [] };
}

/// Announces work under the next number.
pub struct Announce<S> {
    site: PhantomData<S>,
}

impl<T, S: Site<T>> Play<(), View<T>> for Announce<S> {
    ghost use Rattle.tickets.specs.Tickets.{Announces};

    ghost then = { Announces S.work };
}

/// Compares a ticket that came back with the announced work.
pub struct Check;

impl<T> Play<(), View<T>> for Check {
    ghost use Rattle.tickets.specs.Tickets.{Checks};

    ghost then = { Checks };
}

/// Splits a ticket off the keeper's seat, and joins one to it.
pub struct TicketExchange;

impl<T> Split<View<T>> for TicketExchange {
    ghost use Rattle.tickets.specs.Tickets.{ticket_of};

    ghost left = { λ v. v };

    ghost right = { ticket_of };
}

impl<T> Join<View<T>> for TicketExchange {
    ghost use Rattle.tickets.specs.Tickets.{with_ticket, nobody};

    ghost both = { with_ticket };

    ghost spent = { nobody };
}
