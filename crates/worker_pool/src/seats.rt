//! The start of a table, and the splitting and joining of its seats.
ghost use Rattle.std.specs.Prelude.{◌≡◌, ℕ, ◌+◌, ◌<◌, ◌≤◌, IfOk};
ghost use Rattle.worker_pool.specs.Views.{one_less, newcomer, joined, fresh, all_shares};
ghost use Rattle.worker_pool.specs.Handles.{view_of, block_count, IsAt, IsSameSeat};

use crate::plays::Shares;
use crate::seat::{PassSeat, PassTable};
use atomic_table::Table;
use std::alloc::{AllocError, Global};

/// The number of words of a table for 256 blocks, the most of a pass.
const MOST_WORDS: usize = 257;

impl PassTable {
    /// A table without claims, and the seat with all shares. The initial words are on the stack,
    /// since the table copies them.
    pub fn new(alloc: Global, blocks: u32) -> Result<(PassTable, PassSeat), AllocError>
        requires few { blocks ≤ 256 }
        ensures { IfOk result (λ made.
            (block_count made.0 ≡ blocks) × IsAt made.1 made.0
            × (view_of made.1 ≡ fresh all_shares)) }
    {
        let mut words = [0u64; MOST_WORDS];
        words[0] = u64::MAX;
        let first = &words[..blocks as usize + 1];
        let (table, seat) = Table::of_words(alloc, first, &blocks)?;
        Ok((PassTable { table, blocks }, PassSeat { seat, seen: 0 }))
    }

    /// Splits one share off a seat into a new seat that has seen no block.
    pub fn split(&self, seat: &mut PassSeat) -> PassSeat
        requires here { IsAt seat.old self.now }
        requires two { 2 ≤ (view_of seat.old).shares }
        ensures kept { IsSameSeat seat.new seat.old
            × (view_of seat.new ≡ one_less (view_of seat.old)) }
        ensures other { IsAt result self.now × (view_of result ≡ newcomer) }
    {
        let other = self.table.shared.split_seat::<Shares>(&mut seat.seat);
        PassSeat {
            seat: other,
            seen: 0,
        }
    }

    /// Joins two seats into one, which knows what both knew.
    pub fn join(&self, seat: &mut PassSeat, other: PassSeat)
        requires here { IsAt seat.old self.now }
        requires other { IsAt other self.now }
        ensures { IsSameSeat seat.new seat.old
            × (view_of seat.new ≡ joined (view_of seat.old) (view_of other)) }
    {
        let PassSeat {
            seat: other_seat,
            seen: other_seen,
        } = other;
        self.table
            .shared
            .join_seat::<Shares>(&mut seat.seat, other_seat);
        seat.seen = seat.seen.max(other_seen);
    }
}
