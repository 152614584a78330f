//! `Spawner`, the trait of what starts children.
ghost use Rattle.std.specs.Prelude.{◌≡◌, ℕ, ◌<◌, ◌≤◌, ◌∷◌, [], List, length, true, false, IfOk};
ghost use Rattle.std.specs.Prelude.{OnErr};
ghost use Rattle.std.specs.Result.{is_err};
ghost use Rattle.det_io.specs.Count.{Rose};
ghost use Rattle.lane.specs.child_processes.Spawners.{SpawnerState, ReadsChild, moved, IsAtEnd};
ghost use Rattle.lane.specs.child_processes.Spawners.{Fixed, Starts};
ghost use Rattle.lane.specs.child_processes.Spawners.{ChildrenStay, Asks, Finishes, StatusIs};
ghost use Rattle.lane.specs.child_processes.Spawners.{words_of};

use crate::child_processes::SpawnFailed;

/// Starts children, numbered from 0, reads what each writes, and waits for their ends.
///
/// `sees` is the state that contracts see: how many children were started, which of them were given
/// to `finish` and for which that failed, and the count of other faults. More may be known: each
/// child's arguments and the rest of its output, the calls of `start`, and a child's output and
/// exit status by its arguments.
pub trait Spawner {
    ghost sees: { Self → SpawnerState };

    /// Starts a child with these arguments and returns its number. The first argument is the
    /// program.
    fn start(&mut self, words: &[String]) -> Result<u32, SpawnFailed>
        requires { 0 < length words.now }
        ensures starts { IfOk result
            (Starts (sees self.old) (sees self.new) (words_of words.now)) }
        ensures stay { OnErr result (ChildrenStay (sees self.old) (sees self.new)) }
        ensures asks { Asks (sees self.old) (sees self.new) (words_of words.now ∷ []) }
        ensures fixed { Fixed (sees self.old) (sees self.new) }
        ensures cause { OnErr result (Rose (sees self.old).faults (sees self.new).faults) }
        ensures counted { (sees self.old).faults ≤ (sees self.new).faults };

    /// Reads the next bytes of a child's output into the front of the buffer and returns how many.
    /// It waits for them. A child that was given to `finish` has none.
    fn read(&mut self, child: u32, buf: &mut [u8]) -> Result<usize, SpawnFailed>
        requires { child < (sees self.old).children }
        ensures within { IfOk result (λ n. n ≤ length buf.old) }
        ensures reads { ReadsChild (sees self.old) (sees self.new) child (moved result buf.new) }
        ensures end { IfOk result
            (λ n. n ≡ 0 → 0 < length buf.old → IsAtEnd (sees self.new) child) }
        ensures done { IfOk result (λ n. (sees self.old).finished child ≡ true → n ≡ 0) }
        ensures cause { OnErr result (Rose (sees self.old).faults (sees self.new).faults) }
        ensures counted { (sees self.old).faults ≤ (sees self.new).faults };

    /// Ends the use of a child and returns its exit status. The child is stopped if its output
    /// wasn't read to its end, and then waited for. The call fails for a child that ends without an
    /// exit status. The child counts as finished even if the call fails. Without the stop, a child
    /// that neither writes nor ends would hold the lane up after a difference.
    fn finish(&mut self, child: u32) -> Result<u8, SpawnFailed>
        requires started { child < (sees self.old).children }
        requires running { (sees self.old).finished child ≡ false }
        ensures finishes { Finishes (sees self.old) (sees self.new) child }
        ensures fixed { Fixed (sees self.old) (sees self.new) }
        ensures status { IfOk result (StatusIs (sees self.old) child) }
        ensures lost { (sees self.new).lost child ≡ is_err result };
}
