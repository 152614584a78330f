//! Tickets, by which their keeper knows that a kept thread's reply is for its present work.
//!
//! A kept thread gets one piece of work after another through a ring. Of the values that it sends
//! back only the type is known. A ticket goes with the work and comes back with the result.
//! Besides its number it is a token without bytes, whose ghost view holds the work. The keeper
//! knows the work that it announced last. By one load it learns that a ticket with the present
//! number is for that work.
#![tactic(auto)]

mod keeper;
mod office;
mod plays;
mod view;

pub use keeper::{Keeper, Ticket};
pub use office::Office;
pub use view::{OfficeName, TicketRule, View};
