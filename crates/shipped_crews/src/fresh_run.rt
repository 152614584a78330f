//! `FreshRun`: a run before its first cycle, how its crew is started, and a visitor called on both.
ghost use Rattle.std.specs.Prelude.{◌≡◌, length, min, max, None, IfOk};
ghost use Rattle.job.specs.Passes.{blocks_of};
ghost use Rattle.probes.specs.Shows.{seen};
ghost use Rattle.recorder.specs.run_writer.Recording.{IsNew};
ghost use Rattle.worker_pool.specs.Crews.{room_name};
ghost use Rattle.shipped_crews.specs.Runs.{IsGoodRun};
ghost use Rattle.shipped_crews.specs.Visits.{HasVisited, HasVisitedTwo, GivesSecond};

use crate::two_crews::{PlannedRun, visit_second};
use crate::visit::Visit;
use crate::visit_two::VisitTwo;
use crate::workers::{Workers, workers_needed};
use cycle_engine::Engine;
use det_io::{Sink, Slots};
use det_values::Profile;
use job::{Job, Pool};
use probes::{Audience, Probe};
use recorder::run_writer::{Recording, Runner};
use std::alloc::AllocError;
use std::thread::Threads;
use tickets::OfficeName;
use worker_pool::{AnyGate, Crew, CrewRoom};

/// A run before anything of it is written, the room for its crew, and the workers that it needs.
#[derive(Drop)]
pub(crate) struct FreshRun<'r, J: Job, R> {
    pub(crate) recording: Recording<J>,
    pub(crate) room: CrewRoom<J>,
    pub(crate) workers: Workers<'r, R>,
}

impl<'r, J: Job, R> FreshRun<'r, J, R> {
    /// Makes the run of a job, for as many of the workers as there are blocks of elements.
    pub(crate) fn new(
        workers: &Workers<'r, R>,
        profile: Profile,
    ) -> Result<FreshRun<'r, J, R>, AllocError>
        requires good { J.meaning.bad_param profile.params (length profile.events) ≡ None }
        ensures new { IfOk result (λ fresh_run. IsNew J.meaning fresh_run.recording) }
        ensures profile { IfOk result (λ fresh_run. fresh_run.recording.profile ≡ profile) }
        ensures workers { IfOk result (λ fresh_run. fresh_run.workers.count
            ≡ max (min workers.now.count
            (blocks_of (length fresh_run.recording.engine.state.elements))) 1) }
    {
        let events = profile.events.len() as u16;
        let Ok(job) = J::make(&profile.params, events) else {
            unreachable!()
        };
        let engine = Engine::start(workers.alloc, job, &profile)?;
        let recording = Recording::new(workers.alloc, engine, profile);
        let room = CrewRoom::<J>::new(workers.alloc)?;
        let workers = workers_needed(workers, recording.elements());
        Ok(FreshRun {
            recording,
            room,
            workers,
        })
    }
}

// What threads require of a job's types is said only here.
impl<J, R> FreshRun<'_, J, R>
where
    J: Job + Send + Sync + 'static,
    J::Globals: Send + 'static,
    J::Element: Send + Sync + 'static,
    J::Plan: Send + Sync + 'static,
    J::Part: Send + Sync + 'static,
    R: Threads,
{
    /// Starts the threads of a crew in the room of the run. The name of the room is `N`.
    fn start_crew<N: OfficeName + Send + Sync + 'static>(
        self,
    ) -> Result<Runner<J, Crew<J, N, AnyGate>>, AllocError>
        requires { room_name self.room ≡ N.table }
        ensures recording { IfOk result (λ runner. runner.recording ≡ self.entry.recording) }
        ensures workers { IfOk result (λ runner. runner.pool ≡ self.entry.workers.count) }
    {
        let FreshRun {
            recording,
            room,
            workers,
        } = self;
        let pool = Crew::<J, N, AnyGate>::start(
            workers.rt,
            workers.alloc,
            room,
            workers.count,
            workers.gate,
        )?;
        Ok(Runner { recording, pool })
    }

    /// Calls a visitor on the run and its crew. The crew's threads end before this returns.
    pub(crate) fn visit<N: OfficeName + Send + Sync + 'static, V: Visit, S: Slots, K: Sink>(
        self,
        visitor: V,
        shelf: &mut S,
        sink: &mut K,
        audience: &mut Audience,
    ) -> Result<V::Answer, AllocError>
        requires room { room_name self.room ≡ N.table }
        requires new { IsNew J.meaning self.recording }
        requires can { V.Can visitor self.recording.profile (S.sees shelf.old) }
        ensures { HasVisited S.sees S.stays K.took K.faults
            (V.Gives _ _ _ _ _ J.meaning self.entry.recording.profile visitor)
            shelf.old shelf.new sink.old sink.new
            (seen (λ b. (⟦<dyn Probe as Probe>⟧ b.vtable).life b.value) audience.old)
            (seen (λ b. (⟦<dyn Probe as Probe>⟧ b.vtable).life b.value) audience.new) result }
    {
        let rt = self.workers.rt;
        let Runner {
            mut recording,
            mut pool,
        } = self.start_crew::<N>()?;
        let answer = visitor.visit(&mut recording, &mut pool, shelf, sink, audience);
        pool.stop(rt);
        Ok(answer)
    }

    /// Calls a visitor on another run, which is the first one, and on this run with a crew. The
    /// threads of this crew end before this returns.
    pub(crate) fn visit_two<N, A, P, V, S, K, L>(
        self,
        first: &mut Runner<A, P>,
        visitor: V,
        shelf: &mut S,
        first_sink: &mut K,
        second_sink: &mut L,
    ) -> Result<V::Answer, AllocError>
    where
        N: OfficeName + Send + Sync + 'static,
        A: Job,
        P: Pool<A>,
        V: VisitTwo,
        S: Slots,
        K: Sink,
        L: Sink,
        requires room { room_name self.room ≡ N.table }
        requires first { IsNew A.meaning first.old.recording }
        requires second { IsNew J.meaning self.recording }
        requires can { V.Can visitor first.old.recording.profile self.recording.profile
            (S.sees shelf.old) }
        ensures { HasVisitedTwo S.sees S.stays
            (V.Gives _ _ _ _ _ A.meaning first.old.recording.profile
            _ _ _ _ _ J.meaning self.entry.recording.profile visitor)
            K.took K.faults L.took L.faults shelf.old shelf.new
            first_sink.old first_sink.new second_sink.old second_sink.new result }
    {
        let rt = self.workers.rt;
        let mut second = self.start_crew::<N>()?;
        let answer = visitor.visit_two(first, &mut second, shelf, first_sink, second_sink);
        let Runner { recording: _, pool } = second;
        pool.stop(rt);
        Ok(answer)
    }

    /// Calls a visitor on this run with a crew, which is the first one, and on a second run. The
    /// threads of this crew end before this returns.
    pub(crate) fn visit_before<N, V, S, K, L>(
        self,
        second: PlannedRun<'_, R>,
        visitor: V,
        shelf: &mut S,
        first_sink: &mut K,
        second_sink: &mut L,
    ) -> Result<V::Answer, AllocError>
    where
        N: OfficeName + Send + Sync + 'static,
        V: VisitTwo,
        S: Slots,
        K: Sink,
        L: Sink,
        requires room { room_name self.room ≡ N.table }
        requires first { IsNew J.meaning self.recording }
        requires second { IsGoodRun second.run.kind second.run.profile }
        requires can { V.Can visitor self.recording.profile second.run.profile
            (S.sees shelf.old) }
        ensures { HasVisitedTwo S.sees S.stays
            (GivesSecond (V.Gives _ _ _ _ _ J.meaning self.entry.recording.profile)
            second.entry.run.kind second.entry.run.profile visitor)
            K.took K.faults L.took L.faults shelf.old shelf.new
            first_sink.old first_sink.new second_sink.old second_sink.new result }
    {
        let rt = self.workers.rt;
        let mut first = self.start_crew::<N>()?;
        let answer = visit_second::<J, Crew<J, N, AnyGate>, V, S, K, L, R>(
            &mut first,
            second,
            visitor,
            shelf,
            first_sink,
            second_sink,
        );
        let Runner { recording: _, pool } = first;
        pool.stop(rt);
        answer
    }
}
