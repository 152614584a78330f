//! The table of a pass, a worker's seat at it, and the rule that the table keeps.
ghost use Rattle.std.specs.Prelude.{◌≡◌, ◌+◌, ◌<◌, []};

use crate::pool_view::PoolView;
use atomic_table::{Seat, Table, TableRule};
use std::alloc::Global;

/// The rule that holds on the table between two steps. Its key is the number of blocks.
pub struct PoolRule;

impl TableRule<(), PoolView, u32> for PoolRule {
    ghost use Rattle.worker_pool.specs.Rule.{Ruled};
    ghost use Rattle.worker_pool.specs.Views.{fresh, all_shares};

    ghost holds = { Ruled };

    ghost first = { λ _. fresh all_shares };
}

/// The table of one pass. Word 0 is the least reported block, or `u64::MAX`. Word b + 1 is 0 until
/// block b is claimed, and 1 afterwards.
#[derive(Drop)]
pub struct PassTable {
    pub(crate) table: Table<(), PoolView, u32, PoolRule, Global>,
    pub(crate) blocks: u32,
    ghost sized: { (table.shared.key ≡ blocks) × (table.shared.table_id.words ≡ blocks + 1) },
}

/// A worker's seat at the table of a pass.
#[derive(Drop)]
pub struct PassSeat {
    pub(crate) seat: Seat<(), PoolView>,
    pub(crate) seen: u32,
    ghost counts: { (seen ≡ seat.me.0.seen) × (seat.me.1 ≡ []) },
    ghost shared: { 0 < seat.me.0.shares },
}
