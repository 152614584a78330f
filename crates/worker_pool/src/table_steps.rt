//! The steps of a worker on the table. Each is one atomic step on one word, allocates nothing, and
//! changes only the view of its own seat. It keeps the rule: it is a `Turn` of the table.
ghost use Rattle.std.specs.Prelude.{◌≡◌, ℕ, ◌+◌, ◌<◌, ◌≤◌, min, MatchOption, IsTrue};
ghost use Rattle.worker_pool.specs.declared.pool_view.Mark.TheVariants.{Open, Finished, Reported};
ghost use Rattle.worker_pool.specs.declared.pool_view.Mark.TheVariants.{Skipped};
ghost use Rattle.worker_pool.specs.Handles.{view_of, number_of, block_count, IsAt, IsSameSeat};
ghost use Rattle.worker_pool.specs.Steps.{Turn, TurnOf};
ghost use Rattle.worker_pool.specs.Views.{Stands, taken, passed, with_mark, least_in};

use crate::plays::{Claim, Finish, Look, Report, Site};
use crate::seat::{PassSeat, PassTable};
use std::marker::Brand;

impl PassSeat {
    /// The number of blocks that the seat has seen. Each was tried by this worker, or by one whose
    /// seat was joined to its own.
    pub fn seen(&self) -> u32
        ensures { result ≡ (view_of self.now).seen }
    {
        self.seen
    }
}

impl PassTable {
    /// The number of blocks of the pass.
    pub fn blocks(&self) -> u32
        ensures { result ≡ block_count self.now }
    {
        self.blocks
    }

    /// Tries the block after those that the seat has seen, by one `swap`. Returns the block if it
    /// was free, or None if another seat has claimed it. A separate range for each worker would be
    /// kinder to caches, but needs another rule for the table, and so other laws.
    pub fn claim(&self, seat: &mut PassSeat) -> Option<u32>
        requires here { IsAt seat.old self.now }
        requires more { (view_of seat.old).seen < block_count self.now }
        ensures seat { IsSameSeat seat.new seat.old }
        ensures answer { MatchOption result
            (TurnOf self.now seat.old seat.new ((view_of seat.old).seen + 1) 1 1
            × (view_of seat.new ≡ passed (view_of seat.old)))
            (λ b. (b ≡ (view_of seat.old).seen)
            × TurnOf self.now seat.old seat.new (b + 1) 0 1
            × (view_of seat.new ≡ taken (view_of seat.old))) }
    {
        self.claim_at::<Brand>(seat)
    }

    fn claim_at<B: Site>(&self, seat: &mut PassSeat) -> Option<u32>
        requires here { IsAt seat.old self.now }
        requires more { (view_of seat.old).seen < block_count self.now }
        requires site { (block_count self.now ≡ B.blocks) × (number_of seat.old ≡ B.seat) }
        ensures seat { IsSameSeat seat.new seat.old }
        ensures answer { MatchOption result
            (Turn B.blocks B.seat (view_of seat.old) (view_of seat.new)
            ((view_of seat.old).seen + 1) 1 1
            × (view_of seat.new ≡ passed (view_of seat.old)))
            (λ b. (b ≡ (view_of seat.old).seen)
            × Turn B.blocks B.seat (view_of seat.old) (view_of seat.new) (b + 1) 0 1
            × (view_of seat.new ≡ taken (view_of seat.old))) }
    {
        let block = seat.seen;
        let found = self
            .table
            .shared
            .swap::<Claim<B>>(&mut seat.seat, block as usize + 1, 1);
        seat.seen += 1;
        if found == 0 { Some(block) } else { None }
    }

    /// Marks an Open block as Finished: none of its elements refused.
    pub fn finish(&self, seat: &mut PassSeat, block: u32)
        requires here { IsAt seat.old self.now }
        requires open { Stands block Open (view_of seat.old).entries }
        ensures seat { IsSameSeat seat.new seat.old }
        ensures view { view_of seat.new ≡ with_mark block Finished (view_of seat.old) }
        ensures turn { (n : ℕ) × TurnOf self.now seat.old seat.new 0 n n }
    {
        self.finish_at::<Brand>(seat, block);
    }

    fn finish_at<B: Site>(&self, seat: &mut PassSeat, block: u32)
        requires here { IsAt seat.old self.now }
        requires open { Stands block Open (view_of seat.old).entries }
        requires site { (block_count self.now ≡ B.blocks) × (number_of seat.old ≡ B.seat)
            × (block ≡ B.block) }
        ensures seat { IsSameSeat seat.new seat.old }
        ensures view { view_of seat.new ≡ with_mark block Finished (view_of seat.old) }
        ensures turn { (n : ℕ) × Turn B.blocks B.seat (view_of seat.old) (view_of seat.new) 0 n n }
    {
        self.table.shared.load::<Finish<B>>(&mut seat.seat, 0);
    }

    /// Loads the least reported block. If the Open block is above it, the step marks it as Skipped
    /// and returns true.
    pub fn look(&self, seat: &mut PassSeat, block: u32) -> bool
        requires here { IsAt seat.old self.now }
        requires open { Stands block Open (view_of seat.old).entries }
        ensures seat { IsSameSeat seat.new seat.old }
        ensures skipped { IsTrue result
            → (view_of seat.new ≡ with_mark block Skipped (view_of seat.old))
            × ((n : ℕ) × (n < block) × TurnOf self.now seat.old seat.new 0 n n) }
        ensures stays { ¬ IsTrue result → (view_of seat.new ≡ view_of seat.old)
            × (block ≤ least_in (view_of seat.old).entries)
            × ((n : ℕ) × (block ≤ n) × TurnOf self.now seat.old seat.new 0 n n) }
    {
        self.look_at::<Brand>(seat, block)
    }

    fn look_at<B: Site>(&self, seat: &mut PassSeat, block: u32) -> bool
        requires here { IsAt seat.old self.now }
        requires open { Stands block Open (view_of seat.old).entries }
        requires site { (block_count self.now ≡ B.blocks) × (number_of seat.old ≡ B.seat)
            × (block ≡ B.block) }
        ensures seat { IsSameSeat seat.new seat.old }
        ensures skipped { IsTrue result
            → (view_of seat.new ≡ with_mark block Skipped (view_of seat.old))
            × ((n : ℕ) × (n < block) × Turn B.blocks B.seat (view_of seat.old)
            (view_of seat.new) 0 n n) }
        ensures stays { ¬ IsTrue result → (view_of seat.new ≡ view_of seat.old)
            × (block ≤ least_in (view_of seat.old).entries)
            × ((n : ℕ) × (block ≤ n) × Turn B.blocks B.seat (view_of seat.old)
            (view_of seat.new) 0 n n) }
    {
        let least = self.table.shared.load::<Look<B>>(&mut seat.seat, 0);
        least < u64::from(block)
    }

    /// Marks an Open block as Reported, and shows the refusal to the other workers by one
    /// `fetch_min`.
    pub fn report(&self, seat: &mut PassSeat, block: u32)
        requires here { IsAt seat.old self.now }
        requires open { Stands block Open (view_of seat.old).entries }
        ensures seat { IsSameSeat seat.new seat.old }
        ensures view { view_of seat.new ≡ with_mark block Reported (view_of seat.old) }
        ensures turn { (n : ℕ) × TurnOf self.now seat.old seat.new 0 n (min n block) }
    {
        self.report_at::<Brand>(seat, block);
    }

    fn report_at<B: Site>(&self, seat: &mut PassSeat, block: u32)
        requires here { IsAt seat.old self.now }
        requires open { Stands block Open (view_of seat.old).entries }
        requires site { (block_count self.now ≡ B.blocks) × (number_of seat.old ≡ B.seat)
            × (block ≡ B.block) }
        ensures seat { IsSameSeat seat.new seat.old }
        ensures view { view_of seat.new ≡ with_mark block Reported (view_of seat.old) }
        ensures turn { (n : ℕ) × Turn B.blocks B.seat (view_of seat.old) (view_of seat.new) 0 n
            (min n block) }
    {
        self.table
            .shared
            .fetch_min::<Report<B>>(&mut seat.seat, 0, u64::from(block));
    }
}
