//! `with_crew`: an operation on the run of one shipped job, with a crew for it.
ghost use Rattle.probes.specs.Shows.{seen};
ghost use Rattle.jobs.specs.Kinds.{of_kind};
ghost use Rattle.shipped_crews.specs.Runs.{IsGoodRun};
ghost use Rattle.shipped_crews.specs.Visits.{HasVisited};

use crate::fresh_run::FreshRun;
use crate::visit::Visit;
use crate::workers::Workers;
use det_io::{Sink, Slots};
use det_values::{JobKind, Profile};
use jobs::{Bank, Cloud, Guard};
use probes::{Audience, Probe};
use std::alloc::AllocError;
use std::marker::Brand;
use std::thread::Threads;

/// A shipped job and the profile of its run.
#[derive(Drop)]
pub struct ShippedRun {
    pub kind: JobKind,
    pub profile: Profile,
}

/// Calls a visitor on the run of a shipped job and a crew for it. The threads of the crew are kept
/// from the first pass to the last. There are no more of them than blocks of elements. All of them
/// end before this returns. If memory runs out first, the visitor was not called.
pub fn with_crew<V: Visit, S: Slots, K: Sink, R: Threads>(
    workers: &Workers<'_, R>,
    run: ShippedRun,
    visitor: V,
    shelf: &mut S,
    sink: &mut K,
    audience: &mut Audience,
) -> Result<V::Answer, AllocError>
    requires good { IsGoodRun run.kind run.profile }
    requires can { V.Can visitor run.profile (S.sees shelf.old) }
    ensures { HasVisited S.sees S.stays K.took K.faults (λ shelf sink audience last answer.
        of_kind (λ s g e l p m. V.Gives s g e l p m run.profile visitor
        shelf sink audience last answer) run.kind)
        shelf.old shelf.new sink.old sink.new
        (seen (λ b. (⟦<dyn Probe as Probe>⟧ b.vtable).life b.value) audience.old)
        (seen (λ b. (⟦<dyn Probe as Probe>⟧ b.vtable).life b.value) audience.new) result }
{
    let ShippedRun { kind, profile } = run;
    match kind {
        JobKind::Bank => {
            let run = FreshRun::<Bank, R>::new(workers, profile)?;
            run.visit::<Brand, V, S, K>(visitor, shelf, sink, audience)
        }
        JobKind::Cloud => {
            let run = FreshRun::<Cloud, R>::new(workers, profile)?;
            run.visit::<Brand, V, S, K>(visitor, shelf, sink, audience)
        }
        JobKind::Guard => {
            let run = FreshRun::<Guard, R>::new(workers, profile)?;
            run.visit::<Brand, V, S, K>(visitor, shelf, sink, audience)
        }
    }
}
