//! A pass to be run, its result and its error: the data that an engine and a pool exchange.
ghost use Rattle.std.specs.Prelude.{◌≡◌, ◌≤◌, ◌<◌, ◌*◌, ◌⊎◌, [], length, None, IfSome};
ghost use Rattle.job.specs.Pass.{block_size, in_block};
ghost use Rattle.job.specs.Passes.{blocks_in};

use crate::Job;
use crate::block_sizes::{block_count, block_size};
use det_values::{Container, DrawnElements};
use std::alloc::{AllocError, Global};
use std::marker::Model;
use std::sync::Arc;

/// A pass to be run. Its data are behind `Arc`s, so a thread that may outlive the call clones them.
#[derive(Drop)]
pub struct PassRef<'p, J: Job> {
    pub job: &'p Arc<J, Global>,
    pub plan: &'p Arc<J::Plan, Global>,
    /// The part of the pass before, or the unit in the first pass.
    pub carry: &'p Arc<J::Part, Global>,
    /// The number of the pass in its cycle, counted from 0.
    pub number: u8,
    pub elements: &'p Arc<Container<J::Element>, Global>,
    pub seed: u64,
    /// The cycle's number, counted from 1.
    pub cycle: u32,
    /// The draws of each element in the passes before: its counts of random numbers. Empty in the
    /// first pass.
    pub earlier: &'p Arc<Container<u32>, Global>,
    /// Whether the pass also returns the bytes of the new elements. Only a cycle's last pass does.
    pub shows: bool,
}

impl<'p, J: Job> Model for PassRef<'p, J> {
    ghost use Rattle.std.specs.Arc.{arc_value};
    ghost use Rattle.job.specs.Passes.{PassValue};

    ghost Value = { PassValue J J.Element J.Plan J.Part };

    ghost view = { λ p. record {
      job = arc_value p.job.now;
      plan = arc_value p.plan.now;
      carry = arc_value p.carry.now;
      number = p.number;
      elements = arc_value p.elements.now;
      seed = p.seed;
      cycle = p.cycle;
      earlier = arc_value p.earlier.now;
      shows = p.shows;
    } };
}

impl<'p, J: Job> PassRef<'p, J> {
    /// The job of the pass.
    #[inline(always)]
    pub fn job(&self) -> &J
        ensures { result.now ≡ self.now.job }
    {
        &**self.job
    }

    /// Whether the pass also returns the bytes of its new elements.
    pub fn shows(&self) -> bool
        ensures { result ≡ self.now.shows }
    {
        self.shows
    }

    /// The number of elements.
    pub fn count(&self) -> usize
        ensures count { result ≡ length self.now.elements }
        ensures few { result ≤ 65536 }
    {
        self.elements.len()
    }

    /// The number of blocks.
    pub fn blocks(&self) -> u32
        ensures blocks { result ≡ blocks_in self.now }
        ensures few { result ≤ 256 }
    {
        block_count(self.count())
    }

    /// The index of the first element of a block. Blocks and elements count from 0.
    pub fn first_in(&self, block: u32) -> u32
        requires { block < blocks_in self.now }
        ensures first { result ≡ block_size (length self.now.elements) * block }
        ensures inside { result < length self.now.elements }
    {
        block_size(self.count()) as u32 * block
    }

    /// The elements of a block.
    pub fn block(&self, number: u32) -> &[J::Element]
        requires { number < blocks_in self.now }
        ensures { result.now ≡ in_block (length self.now.elements) number self.now.elements }
    {
        let size = block_size(self.count());
        self.elements.part(size * number as usize, size)
    }

    /// The draws of a block's elements in the passes before. None in the first pass.
    pub fn earlier_block(&self, number: u32) -> Option<&[u32]>
        requires inside { number < blocks_in self.now }
        requires level { (self.now.earlier ≡ []) ⊎ (length self.now.earlier
            ≡ length self.now.elements) }
        ensures none { result ≡ None → self.now.earlier ≡ [] }
        ensures some { IfSome result (λ draws. (draws.now
            ≡ in_block (length self.now.elements) number self.now.earlier)
            × (length self.now.earlier ≡ length self.now.elements)) }
    {
        if self.earlier.is_empty() {
            return None;
        }
        let size = block_size(self.count());
        Some(self.earlier.part(size * number as usize, size))
    }
}

/// The result of a pass: the new elements, the draws of each in it, and the joined part. If the
/// pass shows its elements, `shown` has the bytes of each, with its draws in all passes up to this
/// one. Otherwise it is unspecified.
#[derive(Drop)]
pub struct PassDone<E, P> {
    pub elements: Container<E>,
    pub draws: Container<u32>,
    pub part: P,
    pub shown: DrawnElements,
}

/// Why a pass failed.
#[derive(Clone, Copy, Debug, PartialEq, Eq, Drop)]
pub enum PoolFault {
    /// The first element, by index, that refuses, and its code.
    Refused { element: u32, code: u32 },
    /// Memory could not be allocated.
    OutOfMemory,
}

impl From<AllocError> for PoolFault {
    ghost use Rattle.std.specs.Prelude.{◌≡◌};
    ghost use Rattle.job.specs.declared.pass.PoolFault.TheVariants as faults;

    ghost from_gives = { λ _ fault. fault ≡ faults.OutOfMemory };

    fn from(_: AllocError) -> PoolFault {
        PoolFault::OutOfMemory
    }
}
