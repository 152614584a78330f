//! The end of a cycle, and its passes and end together.
ghost use Rattle.std.specs.Prelude.{◌≡◌, ◌≤◌, length, Ok, Err, IfOk};
ghost use Rattle.std.specs.List.{All};
ghost use Rattle.std.specs.Arc.{arc_value};
ghost use Rattle.job.specs.Cycle.{all_passes, concluded, shown_with};
ghost use Rattle.cycle_engine.specs.PhaseResults.{IsCycle, left_by};

use crate::cycle_fault::{CycleFault, in_job};
use crate::desk::Desk;
use crate::passes::{Passes, PassesDone};
use det_values::{Bytes, Container, DrawnElements, Phase};
use job::{Job, Pool};
use std::alloc::Global;
use std::sync::Arc;

/// The result of a finished cycle: the state after it, the bytes of its elements and its output.
#[derive(Drop)]
pub struct CycleDone<G, E> {
    pub globals: G,
    pub elements: Arc<Container<E>, Global>,
    pub shown: DrawnElements,
    pub output: Bytes,
}

/// The sequential end, after the last pass.
pub(crate) fn conclude_cycle<J: Job>(
    passes: &Passes<'_, J>,
    globals: &J::Globals,
    last: PassesDone<J::Element, J::Part>,
    desk: &mut Desk<J>,
) -> Result<CycleDone<J::Globals, J::Element>, CycleFault>
    requires few { length last.elements ≤ 65536 }
    requires covers { J.Covers passes.now.job last.part (length last.elements) }
    requires shown { last.shown
        ≡ shown_with J.meaning passes.now.job last.elements last.draws }
    ensures cycle { IsCycle result passes.now.seed (concluded J.meaning passes.now.job globals.now
        passes.now.plan passes.now.seed (left_by last)) }
    ensures elements { IfOk result (λ done. arc_value done.elements ≡ last.elements) }
{
    let concluded = passes.job.conclude(
        desk.alloc(),
        globals,
        &**passes.plan,
        &last.part,
        &mut desk.output,
    );
    desk.room.keep_part(last.part);
    last.draws.release(desk);
    match concluded {
        Ok(concluded) => Ok(CycleDone {
            globals: concluded.globals,
            elements: desk.share_elements(last.elements)?,
            shown: last.shown,
            output: concluded.output,
        }),
        Err(fault) => {
            desk.room.elements.keep(last.elements);
            desk.room.keep_frame(last.shown);
            Err(in_job(Phase::Conclude, fault))
        }
    }
}

impl<'c, J: Job> Passes<'c, J> {
    /// Runs all passes of the plan over these elements, and the sequential end. The draws of an
    /// element are those of all passes together.
    pub(crate) fn cycle<P: Pool<J>>(
        &self,
        pool: &mut P,
        globals: &J::Globals,
        elements: &Arc<Container<J::Element>, Global>,
        desk: &mut Desk<J>,
    ) -> Result<CycleDone<J::Globals, J::Element>, CycleFault>
        requires few { length (arc_value elements.now) ≤ 65536 }
        requires own { All (J.Own self.now.job) (arc_value elements.now) }
        ensures cycle { IsCycle result self.now.seed (elim (all_passes J.meaning self.now.job
            self.now.plan self.now.seed self.now.cycle (arc_value elements.now)) [
              | Ok last ↦ concluded J.meaning self.now.job globals.now self.now.plan self.now.seed
                  last
              | Err at ↦ Err at
            ]) }
        ensures own { IfOk result (λ done. All (J.Own self.now.job) (arc_value done.elements)) }
        ensures few { IfOk result (λ done. length (arc_value done.elements) ≤ 65536) }
    {
        let mut done = self.first(pool, elements, desk)?;
        for number in 1..self.job.passes(&**self.plan) {
            done = self.next(pool, number, done, desk)?;
        }
        conclude_cycle(self, globals, done, desk)
    }
}
