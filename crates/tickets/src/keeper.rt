//! The keeper, which announces work, and its tickets.
ghost use Rattle.std.specs.Prelude.{◌≡◌, ◌+◌, ◌<◌, ◌^◌, []};
ghost use Rattle.tickets.specs.Offices.{name_of};

use crate::office::Office;
use crate::plays::{Announce, Check, Site, TicketExchange};
use crate::view::{OfficeName, TicketRule, View};
use atomic_table::{Seat, Table};
use std::alloc::Global;
use std::marker::{Brand, Model, PhantomData};

/// Announces work under rising numbers. Contracts see the last number and its work.
#[derive(Drop)]
pub struct Keeper<T, B: OfficeName> {
    table: Table<(), View<T>, (), TicketRule, Global>,
    seat: Seat<(), View<T>>,
    number: u64,
    room: PhantomData<B>,
}

impl<T, B: OfficeName> Model for Keeper<T, B> {
    ghost use Rattle.std.specs.Prelude.{◌≡◌, [], true};
    ghost use Rattle.tickets.specs.Tickets.{Announced};

    ghost Value = { Announced T };

    ghost view = { λ k. record { number = k.number; work = k.seat.me.0.work } };

    ghost invariant = { λ k. (k.seat.table_id ≡ B.table) × (k.seat.me.1 ≡ [])
        × (k.seat.me.0.keeps ≡ true) × (k.seat.me.0.number ≡ k.number)
        × (k.table.shared.table_id ≡ B.table) × (k.table.shared.table_id.words ≡ 1) };
}

/// Goes with a piece of work and comes back with its result. Contracts see its number and that
/// work.
#[derive(Drop)]
pub struct Ticket<T, B: OfficeName> {
    seat: Seat<(), View<T>>,
    number: u64,
    room: PhantomData<B>,
}

impl<T, B: OfficeName> Model for Ticket<T, B> {
    ghost use Rattle.std.specs.Prelude.{◌≡◌, []};
    ghost use Rattle.tickets.specs.Tickets.{Announced};

    ghost Value = { Announced T };

    ghost view = { λ t. record { number = t.number; work = t.seat.me.0.claim } };

    ghost invariant = { λ t. (t.seat.table_id ≡ B.table) × (t.seat.me.1 ≡ [])
        × (t.seat.me.0.claimed ≡ t.number) };
}

impl<T, B: OfficeName> Ticket<T, B> {
    /// The number of the announcement that the ticket is for.
    pub fn number(&self) -> u64
        ensures { result ≡ self.now.number }
    {
        self.number
    }
}

impl<T, B: OfficeName> Keeper<T, B> {
    /// The keeper of an office.
    pub fn new(office: Office<T>) -> Keeper<T, B>
        requires { name_of office ≡ B.table }
        ensures { result ≡ record { number = 0; work = [] } }
    {
        let Office { table, seat } = office;
        Keeper {
            table,
            seat,
            number: 0,
            room: PhantomData,
        }
    }

    /// The number of the last announcement.
    pub fn number(&self) -> u64
        ensures { result ≡ self.now.number }
    {
        self.number
    }

    /// Announces this work under the next number.
    pub fn announce(&mut self, work: &[T])
        requires { self.old.number < 2 ^ 63 }
        ensures { self.new ≡ record { number = self.old.number + 1; work = work.now } }
    {
        self.announce_at::<Brand>(work);
    }

    fn announce_at<S: Site<T>>(&mut self, work: &[T])
        requires site { work.now ≡ S.work }
        requires room { self.old.number < 2 ^ 63 }
        ensures { self.new ≡ record { number = self.old.number + 1; work = work.now } }
    {
        let _ = work;
        let table = &self.table;
        table.shared.load::<Announce<S>>(&mut self.seat, 0);
        self.number += 1;
    }

    /// A ticket for the work announced last.
    pub fn ticket(&mut self) -> Ticket<T, B>
        ensures same { self.new ≡ self.old }
        ensures ticket { result ≡ self.old }
    {
        let table = &self.table;
        let seat = table.shared.split_seat::<TicketExchange>(&mut self.seat);
        Ticket {
            seat,
            number: self.number,
            room: PhantomData,
        }
    }

    /// Takes a ticket back. If it has the present number, it is for the work announced last.
    pub fn check(&mut self, ticket: Ticket<T, B>)
        ensures same { self.new ≡ self.old }
        ensures known { ticket.number ≡ self.old.number → ticket.work ≡ self.old.work }
    {
        let Ticket {
            seat,
            number: _,
            room: _,
        } = ticket;
        let table = &self.table;
        table
            .shared
            .join_seat::<TicketExchange>(&mut self.seat, seat);
        table.shared.load::<Check>(&mut self.seat, 0);
    }
}
