//! Starts and finishes all children of a lane.
ghost use Rattle.std.specs.Prelude.{◌≡◌, ℕ, ◌<◌, ◌≤◌, ◌∷◌, [], None, Some, OnOk, OnErr, true};
ghost use Rattle.std.specs.Prelude.{slice_index_or};
ghost use Rattle.det_io.specs.Count.{Rose};
ghost use Rattle.det_io.specs.Traffic.{failure_of};
ghost use Rattle.lane.specs.child_processes.Spawners.{Asks, ChildrenStay, Fixed, Starts};
ghost use Rattle.lane.specs.Children.{AllFinished, AllRun, AsksPrefix, HasAll, StatusesAre};
ghost use Rattle.lane.specs.Words.{child_words, lane_value, words_of_all};

use crate::child_processes::Spawner;
use crate::lane::Lane;
use det_io::Failure;
use std::alloc::Global;

/// The most copies that a lane has.
pub(crate) const MOST_COPIES: usize = 8;

/// The exit statuses of the children by their numbers. None for a child without one, or that
/// couldn't be waited for.
pub(crate) type Statuses = [Option<u8>; MOST_COPIES];

/// How many children were started, and why no further one was.
#[derive(Drop)]
pub(crate) struct Started {
    pub count: u32,
    pub failure: Option<Failure>,
}

/// Starts a child.
fn start_child<P: Spawner>(
    alloc: Global,
    lane: &Lane<'_>,
    child: u32,
    spawner: &mut P,
) -> Result<(), Failure>
    requires { child < 8 }
    ensures starts { OnOk result (Starts (P.sees spawner.old) (P.sees spawner.new)
        (child_words (lane_value lane.now) child) (P.sees spawner.old).children) }
    ensures stay { OnErr result (ChildrenStay (P.sees spawner.old) (P.sees spawner.new)) }
    ensures all { OnOk result (Asks (P.sees spawner.old) (P.sees spawner.new)
        (child_words (lane_value lane.now) child ∷ [])) }
    ensures asks { AsksPrefix (P.sees spawner.old) (P.sees spawner.new)
        (child_words (lane_value lane.now) child ∷ []) }
    ensures fixed { Fixed (P.sees spawner.old) (P.sees spawner.new) }
    ensures cause { failure_of result ≡ Some Failure.Read
        → Rose (P.sees spawner.old).faults (P.sees spawner.new).faults }
    ensures no_write { failure_of result ≡ Some Failure.Write → ⊥ }
    ensures counted { (P.sees spawner.old).faults ≤ (P.sees spawner.new).faults }
{
    let words = lane.child_words(alloc, child)?;
    match spawner.start(&words) {
        Ok(_) => Ok(()),
        Err(_) => Err(Failure::Read),
    }
}

/// Starts the children in their order, until one can't be started.
pub(crate) fn start_all<P: Spawner>(alloc: Global, lane: &Lane<'_>, spawner: &mut P) -> Started
    requires none { (P.sees spawner.old).children ≡ 0 }
    ensures count { (P.sees spawner.new).children ≡ result.count }
    ensures all { result.failure ≡ None → result.count ≡ lane.now.copies }
    ensures few { result.count ≤ lane.now.copies }
    ensures running { AllRun (P.sees spawner.new) }
    ensures left { (k : ℕ) → k < result.count
        → HasAll (P.sees spawner.new) (child_words (lane_value lane.now) k) k }
    ensures asks { AsksPrefix (P.sees spawner.old) (P.sees spawner.new)
        (words_of_all (lane_value lane.now)) }
    ensures fixed { Fixed (P.sees spawner.old) (P.sees spawner.new) }
    ensures cause { result.failure ≡ Some Failure.Read
        → Rose (P.sees spawner.old).faults (P.sees spawner.new).faults }
    ensures no_write { result.failure ≡ Some Failure.Write → ⊥ }
    ensures counted { (P.sees spawner.old).faults ≤ (P.sees spawner.new).faults }
{
    for child in 0..lane.copies {
        if let Err(failure) = start_child(alloc, lane, child, spawner) {
            return Started {
                count: child,
                failure: Some(failure),
            };
        }
    }
    Started {
        count: lane.copies,
        failure: None,
    }
}

/// Finishes all children, and returns each exit status that is known.
pub(crate) fn finish_all<P: Spawner>(spawner: &mut P, count: u32) -> Statuses
    requires count { (P.sees spawner.old).children ≡ count }
    requires few { count ≤ 8 }
    requires running { AllRun (P.sees spawner.old) }
    ensures children { (P.sees spawner.new).children ≡ count }
    ensures finished { AllFinished (P.sees spawner.new) }
    ensures statuses { StatusesAre (P.sees spawner.old) result }
    ensures lost { (k : ℕ) → k < count → slice_index_or result k None ≡ None
        → (P.sees spawner.new).lost k ≡ true }
    ensures asked { (P.sees spawner.new).asked ≡ (P.sees spawner.old).asked }
    ensures fixed { Fixed (P.sees spawner.old) (P.sees spawner.new) }
    ensures faults { (P.sees spawner.new).faults ≡ (P.sees spawner.old).faults }
{
    let mut statuses = [None; MOST_COPIES];
    for child in 0..count {
        statuses[child as usize] = spawner.finish(child).ok();
    }
    statuses
}
