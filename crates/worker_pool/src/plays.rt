//! The facts that a worker gets from its steps on the table, in the form that `atomic_table`
//! requires.
ghost use Rattle.std.specs.Prelude.{ℕ};
ghost use Rattle.worker_pool.specs.Steps.{claims, finishes, looks, reports};
ghost use Rattle.worker_pool.specs.Views.{one_less, newcomer, joined, fresh};

use crate::pool_view::PoolView;
use atomic_table::{Join, Play, Split};
use std::marker::{Brand, PhantomData};

/// The place of a step: the number of blocks, the seat's number and the block. They are ghosts, so
/// the private steps have them in a type, and the public steps choose them.
pub trait Site {
    ghost blocks: { ℕ };

    ghost seat: { ℕ };

    ghost block: { ℕ };
}

impl Site for Brand {
    ghost blocks = { 0 };

    ghost seat = { 0 };

    ghost block = { 0 };
}

/// The step of `PassTable::claim`.
pub struct Claim<B> {
    site: PhantomData<B>,
}

impl<B: Site> Play<(), PoolView> for Claim<B> {
    ghost then = { claims B.blocks B.seat };
}

/// The step of `PassTable::finish`.
pub struct Finish<B> {
    site: PhantomData<B>,
}

impl<B: Site> Play<(), PoolView> for Finish<B> {
    ghost then = { finishes B.blocks B.seat B.block };
}

/// The step of `PassTable::look`.
pub struct Look<B> {
    site: PhantomData<B>,
}

impl<B: Site> Play<(), PoolView> for Look<B> {
    ghost then = { looks B.blocks B.seat B.block };
}

/// The step of `PassTable::report`.
pub struct Report<B> {
    site: PhantomData<B>,
}

impl<B: Site> Play<(), PoolView> for Report<B> {
    ghost then = { reports B.blocks B.seat B.block };
}

/// Splits one share off to a new seat, and joins two seats.
pub struct Shares;

impl Split<PoolView> for Shares {
    ghost left = { one_less };

    ghost right = { λ _. newcomer };
}

impl Join<PoolView> for Shares {
    ghost both = { joined };

    ghost spent = { fresh 0 };
}
