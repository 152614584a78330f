//! Laws of the machine and of the table's rule, for any order of steps. Each law is a function that
//! computes nothing; its contract is the law.
//!
//! No contract of a pass depends on these laws: each result is right by its own clause, and the
//! caller runs each block without one. The laws state that the workers share the blocks, and that
//! each block is claimed once.
ghost use Rattle.std.specs.Prelude.{◌≡◌, ◌≢◌, ℕ, ◌+◌, ◌<◌, ◌≤◌, List, [], ◌∷◌, ◌++◌, length, min};
ghost use Rattle.std.specs.Prelude.{slice_index, slice_set, Result};
ghost use mathlib.Core.Option.{some};
ghost use lib.ListN.{get_elem?};
ghost use Rattle.job.specs.Passes.{blocks_of};
ghost use Rattle.job.specs.Pass.{PassResult, Refusal, passed as passed_in_order, block};
ghost use Rattle.worker_pool.specs.Gather.{gather, refuses};
ghost use Rattle.worker_pool.specs.Machine.{Machine, Event, claim, finish, look, report, Has};
ghost use Rattle.worker_pool.specs.Machine.{after, next, start, Leads, HasEnded};
ghost use Rattle.worker_pool.specs.declared.pool_view.Mark.TheVariants.{Open, Finished, Reported};
ghost use Rattle.worker_pool.specs.declared.pool_view.Mark.TheVariants.{Skipped};
ghost use Rattle.worker_pool.specs.declared.pool_view.PoolView.{PoolView};
ghost use Rattle.worker_pool.specs.Views.{Stands, taken, passed, with_mark, one_less, newcomer};
ghost use Rattle.worker_pool.specs.Views.{joined, fresh};
ghost use Rattle.worker_pool.specs.Rule.{PoolState};
ghost use Rattle.worker_pool.specs.MachineOfTable.{At, Becomes};
ghost use Rattle.worker_pool.specs.Moves.{begun, moved, regrouped};

use job::Job;

/// A new table shows the machine's start. Each kind of step keeps the rule, and changes the shown
/// state as one event of the machine does. A claim in vain, a load without effect, a split and a
/// join are no events.
pub fn steps_are_events()
    ensures begin { (blocks : ℕ) → Becomes blocks (begun blocks) start }
    ensures claim { (blocks : ℕ) (s : PoolState) (id : ℕ) (v : PoolView) (m : Machine)
        → At blocks s id v m → v.seen < blocks → slice_index s.words (v.seen + 1) ≡ 0
        → (v.seen ≡ next m) × (next m < blocks)
        × Becomes blocks (moved s (v.seen + 1) 1 id (taken v)) (after claim m) }
    ensures claim_in_vain { (blocks : ℕ) (s : PoolState) (id : ℕ) (v : PoolView) (m : Machine)
        → At blocks s id v m → v.seen < blocks → slice_index s.words (v.seen + 1) ≡ 1
        → Becomes blocks (moved s (v.seen + 1) 1 id (passed v)) m }
    ensures finish { (blocks : ℕ) (s : PoolState) (id : ℕ) (v : PoolView) (m : Machine)
        → At blocks s id v m → (b : ℕ) → Stands b Open v.entries
        → Has m b Open
        × Becomes blocks (moved s 0 (slice_index s.words 0) id (with_mark b Finished v))
        (after (finish b) m) }
    ensures look { (blocks : ℕ) (s : PoolState) (id : ℕ) (v : PoolView) (m : Machine)
        → At blocks s id v m → (b : ℕ) → Stands b Open v.entries → slice_index s.words 0 < b
        → Has m b Open
        × Becomes blocks (moved s 0 (slice_index s.words 0) id (with_mark b Skipped v))
        (after (look b) m) }
    ensures report { (blocks : ℕ) (s : PoolState) (id : ℕ) (v : PoolView) (m : Machine)
        → At blocks s id v m → (b : ℕ) → Stands b Open v.entries
        → Has m b Open
        × Becomes blocks (moved s 0 (min (slice_index s.words 0) b) id (with_mark b Reported v))
        (after (report b) m) }
    ensures load { (blocks : ℕ) (s : PoolState) (id : ℕ) (v : PoolView) (m : Machine)
        → At blocks s id v m → Becomes blocks (moved s 0 (slice_index s.words 0) id v) m }
    ensures split { (blocks : ℕ) (s : PoolState) (id : ℕ) (v : PoolView) (m : Machine)
        → At blocks s id v m → 2 ≤ v.shares
        → Becomes blocks (regrouped s (slice_set s.views id (one_less v) ++ newcomer ∷ [])) m }
    ensures join { (blocks : ℕ) (s : PoolState) (id : ℕ) (v : PoolView) (m : Machine)
        → At blocks s id v m
        → (other : ℕ) (w : PoolView) → other ≢ id → get_elem? s.views other ≡ some w
        → Becomes blocks
        (regrouped s (slice_set (slice_set s.views id (joined v w)) other (fresh 0))) m }
{}

/// After any events in any order, an ended machine gathers the result of one thread that takes the
/// elements in order. The job is a type parameter, since a clause can't range over types.
pub fn any_schedule<J: Job>()
    ensures { (job : J) (plan : J.Plan) (carry : J.Part) (seed cycle pass : ℕ)
        (elements : List J.Element)
        (events : List Event) (end : Machine) → length elements ≤ 65536
        → let blocks : ℕ = blocks_of (length elements) in
        let answer : ℕ → Result (PassResult J.Element J.Part) Refusal =
        λ b. block J.meaning job plan carry seed cycle pass b elements in
        Leads blocks (refuses answer) events start end → HasEnded blocks end
        → gather (J.meaning.joined job) (J.meaning.unit_part job) answer blocks end
        ≡ passed_in_order J.meaning job plan carry seed cycle pass elements }
{}
