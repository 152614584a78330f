//! The first pass of a cycle on a pool, and each later one.
ghost use Rattle.std.specs.Prelude.{◌≡◌, ℕ, ◌+◌, ◌*◌, ◌<◌, ◌≤◌, ◌⊎◌, [], length, IfOk, IfErr};
ghost use Rattle.std.specs.List.{All};
ghost use Rattle.std.specs.Arc.{arc_value};
ghost use Rattle.job.specs.Cycle.{first_pass, next_pass, shown_with};
ghost use Rattle.job.specs.Laws.{CoversSome};
ghost use Rattle.job.specs.Pass.{passed};
ghost use Rattle.job.specs.Passes.{IsPass, RefusedBelow, drawn_so_far};
ghost use Rattle.cycle_engine.specs.PhaseResults.{ArePasses, left_by};

use crate::cycle_fault::{CycleFault, in_pool};
use crate::desk::Desk;
use crate::draws::Draws;
use det_values::{Container, DrawnElements};
use job::{Job, PassDone, PassRef, PassRoom, Pool, PoolFault};
use std::alloc::Global;
use std::marker::Model;
use std::sync::Arc;

/// The data that all passes of one cycle share.
#[derive(Drop)]
pub(crate) struct Passes<'c, J: Job> {
    pub(crate) job: &'c Arc<J, Global>,
    pub(crate) plan: &'c Arc<J::Plan, Global>,
    pub(crate) seed: u64,
    pub(crate) cycle: u32,
}

impl<'c, J: Job> Model for Passes<'c, J> {
    ghost use Rattle.std.specs.Prelude.{◌≤◌};
    ghost use Rattle.std.specs.Arc.{arc_value};
    ghost use Rattle.cycle_engine.specs.PhaseResults.{SharedValue};

    ghost Value = { SharedValue J J.Plan };

    ghost view = { λ p. record {
      job = arc_value p.job.now;
      plan = arc_value p.plan.now;
      seed = p.seed;
      cycle = p.cycle;
    } };

    ghost invariant = { λ p. J.Fit (arc_value p.job.now) (arc_value p.plan.now) × (p.cycle
        ≤ 1000000) };
}

/// The result of the passes up to one: the new elements, their draws and the part. After the last
/// pass, `shown` has the bytes of the elements.
#[derive(Drop)]
pub struct PassesDone<E, P> {
    pub(crate) elements: Container<E>,
    pub(crate) draws: Draws,
    pub(crate) part: P,
    pub(crate) shown: DrawnElements,
}

/// The data that a pass gets from the passes before it.
#[derive(Drop)]
struct Stage<'s, E, P> {
    /// The number of the pass, counted from 0.
    number: u8,
    carry: &'s Arc<P, Global>,
    elements: &'s Arc<Container<E>, Global>,
    /// The draws of each element before. Empty for pass 0.
    earlier: &'s Arc<Container<u32>, Global>,
}

impl<'s, E, P> Model for Stage<'s, E, P> {
    ghost use Rattle.std.specs.Arc.{arc_value};
    ghost use Rattle.cycle_engine.specs.PhaseResults.{StageValue};

    ghost Value = { StageValue E P };

    ghost view = { λ s. record {
      number = s.number;
      carry = arc_value s.carry.now;
      elements = arc_value s.elements.now;
      earlier = arc_value s.earlier.now;
    } };
}

impl<'c, J: Job> Passes<'c, J> {
    /// Runs one pass. The pool may keep owners of its data. The last pass shows its elements.
    fn one<P: Pool<J>>(
        &self,
        pool: &mut P,
        stage: &Stage<'_, J::Element, J::Part>,
        room: &mut PassRoom<J::Element, J::Part>,
    ) -> Result<PassDone<J::Element, J::Part>, PoolFault>
        requires number { stage.now.number < J.meaning.passes_of self.now.job self.now.plan }
        requires carry { CoversSome (J.Covers self.now.job) stage.now.carry }
        requires few { length stage.now.elements ≤ 65536 }
        requires own { All (J.Own self.now.job) stage.now.elements }
        requires level { (stage.now.earlier ≡ []) ⊎ (length stage.now.earlier
            ≡ length stage.now.elements) }
        requires few_earlier { All (λ draws. draws ≤ 458745) stage.now.earlier }
        ensures pass { IsPass result (passed J.meaning self.now.job self.now.plan stage.now.carry
            self.now.seed self.now.cycle stage.now.number stage.now.elements) }
        ensures own { IfOk result (λ done. All (J.Own self.now.job) done.elements) }
        ensures many { IfOk result (λ done. length done.elements ≡ length stage.now.elements) }
        ensures drew { IfOk result (λ done. length done.draws ≡ length stage.now.elements) }
        ensures few_drawn { IfOk result (λ done. All (λ draws. draws ≤ 65535) done.draws) }
        ensures covers { IfOk result (λ done.
            J.Covers self.now.job done.part (length stage.now.elements)) }
        ensures element { IfErr result (RefusedBelow (length stage.now.elements)) }
        ensures shown { IfOk result (λ done.
            stage.now.number + 1 ≡ J.meaning.passes_of self.now.job self.now.plan
            → done.shown ≡ shown_with J.meaning self.now.job done.elements
            (drawn_so_far stage.now.earlier done.draws)) }
    {
        let passes = self.job.passes(&**self.plan);
        let pass = PassRef {
            job: self.job,
            plan: self.plan,
            carry: stage.carry,
            number: stage.number,
            elements: stage.elements,
            seed: self.seed,
            cycle: self.cycle,
            earlier: stage.earlier,
            shows: stage.number + 1 == passes,
        };
        pool.run_pass(&pass, room)
    }

    /// Runs pass 0, which carries the unit.
    pub(crate) fn first<P: Pool<J>>(
        &self,
        pool: &mut P,
        elements: &Arc<Container<J::Element>, Global>,
        desk: &mut Desk<J>,
    ) -> Result<PassesDone<J::Element, J::Part>, CycleFault>
        requires few { length (arc_value elements.now) ≤ 65536 }
        requires own { All (J.Own self.now.job) (arc_value elements.now) }
        ensures pass { ArePasses result (first_pass J.meaning self.now.job self.now.plan
            self.now.seed self.now.cycle (arc_value elements.now)) }
        ensures own { IfOk result (λ done. All (J.Own self.now.job) done.elements) }
        ensures many { IfOk result (λ done. length done.elements
            ≡ length (arc_value elements.now)) }
        ensures drew { IfOk result (λ done. length done.draws ≡ length done.elements) }
        ensures few_drawn { IfOk result (λ done. All (λ draws. draws ≤ 65535) done.draws) }
        ensures covers { IfOk result (λ done.
            J.Covers self.now.job done.part (length done.elements)) }
        ensures shown { IfOk result (λ done. 1 ≡ J.meaning.passes_of self.now.job self.now.plan
            → done.shown ≡ shown_with J.meaning self.now.job done.elements done.draws) }
    {
        let unit = self.job.unit(desk.alloc(), &mut desk.room.part());
        let carry = desk.share_part(unit)?;
        let none = desk.share_draws(Container::new(desk.alloc()))?;
        let stage = Stage {
            number: 0,
            carry: &carry,
            elements,
            earlier: &none,
        };
        let done = self.one(pool, &stage, &mut desk.room);
        desk.keep_part(carry);
        match done {
            Ok(done) => Ok(PassesDone {
                elements: done.elements,
                draws: Draws::new(none, done.draws),
                part: done.part,
                shown: done.shown,
            }),
            Err(fault) => {
                desk.keep_draws(none);
                Err(in_pool(0, fault))
            }
        }
    }

    /// Runs a later pass over the elements of the pass before, whose part it carries. Its draws are
    /// added to those so far.
    pub(crate) fn next<P: Pool<J>>(
        &self,
        pool: &mut P,
        number: u8,
        done: PassesDone<J::Element, J::Part>,
        desk: &mut Desk<J>,
    ) -> Result<PassesDone<J::Element, J::Part>, CycleFault>
        requires number { number < J.meaning.passes_of self.now.job self.now.plan }
        requires few_passes { number < 8 }
        requires own { All (J.Own self.now.job) done.elements }
        requires drew { length done.draws ≡ length done.elements }
        requires few_drawn { All (λ draws. draws ≤ number * 65535) done.draws }
        requires covers { J.Covers self.now.job done.part (length done.elements) }
        ensures pass { ArePasses result (next_pass J.meaning self.now.job self.now.plan
            self.now.seed self.now.cycle number (left_by done)) }
        ensures own { IfOk result (λ next. All (J.Own self.now.job) next.elements) }
        ensures many { IfOk result (λ next. length next.elements ≡ length done.elements) }
        ensures drew { IfOk result (λ next. length next.draws ≡ length next.elements) }
        ensures few_drawn { IfOk result (λ next.
            All (λ draws. draws ≤ (number + 1) * 65535) next.draws) }
        ensures covers { IfOk result (λ next.
            J.Covers self.now.job next.part (length next.elements)) }
        ensures shown { IfOk result (λ next.
            number + 1 ≡ J.meaning.passes_of self.now.job self.now.plan
            → next.shown ≡ shown_with J.meaning self.now.job next.elements next.draws) }
    {
        let earlier = done.draws.into_sums(desk)?;
        let carry = desk.share_part(done.part)?;
        let elements = desk.share_elements(done.elements)?;
        let stage = Stage {
            number,
            carry: &carry,
            elements: &elements,
            earlier: &earlier,
        };
        let next = self.one(pool, &stage, &mut desk.room);
        desk.keep_part(carry);
        desk.keep_elements(elements);
        match next {
            Ok(next) => Ok(PassesDone {
                elements: next.elements,
                draws: Draws::new(earlier, next.draws),
                part: next.part,
                shown: next.shown,
            }),
            Err(fault) => {
                desk.keep_draws(earlier);
                Err(in_pool(number, fault))
            }
        }
    }
}
