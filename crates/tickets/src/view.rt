//! The ghost view of a seat, and the rule over all seats.
use atomic_table::TableRule;
use std::collections::LinkedList;
use std::marker::Brand;

/// The facts that a seat knows. It is only a ghost: no value of it exists at run time.
pub struct View<T> {
    /// Whether the seat is the keeper's.
    pub keeps: bool,
    /// The present number of the keeper.
    pub number: u64,
    /// The work announced under that number.
    pub work: LinkedList<T>,
    /// The number of a ticket.
    pub claimed: u64,
    /// The work that the ticket is for.
    pub claim: LinkedList<T>,
}

/// The rule: a ticket's number is at most the keeper's, and if they are equal so is the work.
pub struct TicketRule;

impl<T> TableRule<(), View<T>, ()> for TicketRule {
    ghost use Rattle.tickets.specs.Tickets.{Ruled, beginning};

    ghost holds = { λ _ s. Ruled s };

    ghost first = { λ _. beginning };
}

/// The name of an office in the types of its keeper and its tickets, so that they can't be confused
/// with those of another. The call that makes the office chooses it.
pub trait OfficeName {
    ghost use Rattle.atomic_table.specs.Seated.{TableId};

    ghost table: { TableId };
}

impl OfficeName for Brand {
    ghost use Rattle.tickets.specs.Tickets.{no_table};

    ghost table = { no_table };
}
