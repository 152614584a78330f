//! `with_two_crews`: an operation on the runs of two shipped jobs, with a crew for each.
ghost use Rattle.recorder.specs.run_writer.Recording.{IsNew};
ghost use Rattle.jobs.specs.Kinds.{of_kind};
ghost use Rattle.shipped_crews.specs.Runs.{IsGoodRun};
ghost use Rattle.shipped_crews.specs.Visits.{HasVisitedTwo, GivesSecond};

use crate::fresh_run::FreshRun;
use crate::one_crew::ShippedRun;
use crate::visit_two::VisitTwo;
use crate::workers::Workers;
use det_io::{Sink, Slots};
use det_values::JobKind;
use job::{Job, Pool};
use jobs::{Bank, Cloud, Guard};
use recorder::run_writer::Runner;
use std::alloc::AllocError;
use std::marker::Brand;
use std::thread::Threads;

/// A run, and the workers for it.
#[derive(Drop)]
pub struct PlannedRun<'r, R> {
    pub run: ShippedRun,
    pub workers: Workers<'r, R>,
}

/// Calls a visitor on a first run and on the run of a second shipped job, with a crew for it.
pub(crate) fn visit_second<A: Job, P: Pool<A>, V: VisitTwo, S: Slots, K: Sink, L: Sink, R: Threads>(
    first: &mut Runner<A, P>,
    second: PlannedRun<'_, R>,
    visitor: V,
    shelf: &mut S,
    first_sink: &mut K,
    second_sink: &mut L,
) -> Result<V::Answer, AllocError>
    requires first { IsNew A.meaning first.old.recording }
    requires second { IsGoodRun second.run.kind second.run.profile }
    requires can { V.Can visitor first.old.recording.profile second.run.profile
        (S.sees shelf.old) }
    ensures { HasVisitedTwo S.sees S.stays
        (GivesSecond (V.Gives _ _ _ _ _ A.meaning first.old.recording.profile)
        second.entry.run.kind second.entry.run.profile visitor)
        K.took K.faults L.took L.faults shelf.old shelf.new
        first_sink.old first_sink.new second_sink.old second_sink.new result }
{
    let PlannedRun { run, workers } = second;
    let ShippedRun { kind, profile } = run;
    match kind {
        JobKind::Bank => {
            let run = FreshRun::<Bank, R>::new(&workers, profile)?;
            run.visit_two::<Brand, A, P, V, S, K, L>(first, visitor, shelf, first_sink, second_sink)
        }
        JobKind::Cloud => {
            let run = FreshRun::<Cloud, R>::new(&workers, profile)?;
            run.visit_two::<Brand, A, P, V, S, K, L>(first, visitor, shelf, first_sink, second_sink)
        }
        JobKind::Guard => {
            let run = FreshRun::<Guard, R>::new(&workers, profile)?;
            run.visit_two::<Brand, A, P, V, S, K, L>(first, visitor, shelf, first_sink, second_sink)
        }
    }
}

/// Calls a visitor on the runs of two shipped jobs, each with a crew of its own. The threads of
/// both crews are kept from the first pass to the last. A crew has no more of them than its run has
/// blocks of elements. All of them end before this returns. If memory runs out first, the visitor
/// was not called.
///
/// Another function, generic in the first run, matches on the second kind. So there are three arms
/// and three, not nine.
pub fn with_two_crews<V: VisitTwo, S: Slots, K: Sink, L: Sink, R: Threads>(
    first: PlannedRun<'_, R>,
    second: PlannedRun<'_, R>,
    visitor: V,
    shelf: &mut S,
    first_sink: &mut K,
    second_sink: &mut L,
) -> Result<V::Answer, AllocError>
    requires first { IsGoodRun first.run.kind first.run.profile }
    requires second { IsGoodRun second.run.kind second.run.profile }
    requires can { V.Can visitor first.run.profile second.run.profile (S.sees shelf.old) }
    ensures { HasVisitedTwo S.sees S.stays
        (λ shelf one two answer. of_kind (λ s g e l p m. GivesSecond
        (V.Gives s g e l p m first.entry.run.profile) second.entry.run.kind
        second.entry.run.profile visitor shelf one two answer) first.entry.run.kind)
        K.took K.faults L.took L.faults shelf.old shelf.new
        first_sink.old first_sink.new second_sink.old second_sink.new result }
{
    let PlannedRun { run, workers } = first;
    let ShippedRun { kind, profile } = run;
    match kind {
        JobKind::Bank => {
            let first = FreshRun::<Bank, R>::new(&workers, profile)?;
            first.visit_before::<Brand, V, S, K, L>(second, visitor, shelf, first_sink, second_sink)
        }
        JobKind::Cloud => {
            let first = FreshRun::<Cloud, R>::new(&workers, profile)?;
            first.visit_before::<Brand, V, S, K, L>(second, visitor, shelf, first_sink, second_sink)
        }
        JobKind::Guard => {
            let first = FreshRun::<Guard, R>::new(&workers, profile)?;
            first.visit_before::<Brand, V, S, K, L>(second, visitor, shelf, first_sink, second_sink)
        }
    }
}
