//! The engine: a job with the state that it keeps between cycles.
ghost use Rattle.std.specs.Prelude.{◌≡◌, ℕ, ◌+◌, ◌<◌, ◌≤◌, List, [], ◌∷◌, ◌++◌, length, map};
ghost use Rattle.std.specs.Prelude.{IfOk, OnOk, OnErr, None, true, false};
ghost use Rattle.std.specs.List.{All, flat_map};
ghost use Rattle.std.specs.Arc.{arc_value};
ghost use Rattle.det_values.specs.Values.{ProfileValue, SampleValue, EventSpecValue};
ghost use Rattle.det_values.specs.declared.frames.CycleInput.{CycleInput as Input};
ghost use Rattle.det_values.specs.declared.frames.RunFrame.{RunFrame as Run};
ghost use Rattle.det_values.specs.Frames.{outcome_in_format};
ghost use Rattle.job.specs.event_cache.Rings.{windows};
ghost use Rattle.job.specs.event_cache.Windows.{HasSeen, next_windows};
ghost use Rattle.job.specs.Cycle.{outcome_of, state_after};
ghost use Rattle.cycle_engine.specs.PhaseResults.{IsCycle};
ghost use Rattle.cycle_engine.specs.Elements.{with_length};
ghost use Rattle.cycle_engine.specs.Frames.{frame_of, state_of};
ghost use Rattle.cycle_engine.specs.Engine.{StandsFor, EngineState, IsAfter};
ghost use Rattle.cycle_engine.specs.Engine.{next_cycle, next_frame};

use crate::cycle_fault::{CycleFault, in_job};
use crate::desk::Desk;
use crate::element_bytes::put_element;
use crate::passes::Passes;
use crate::phases::CycleDone;
use crate::shared_place::new_shared;
use det_client::{Client, Next};
use det_values::{
    Bytes64, Container, CycleInput, Elements, Format, Frame, Outcome, Phase, Profile, RunFrame,
    Sample, reduce_to_format,
};
use job::event_cache::EventCache;
use job::{Job, Pool};
use std::alloc::{AllocError, Global};
use std::marker::Model;
use std::mem;
use std::sync::Arc;

/// A job with the state that it keeps between cycles: globals, elements, client and event cache.
#[derive(Drop)]
pub struct Engine<J: Job> {
    job: Arc<J, Global>,
    format: Format,
    cycle_time: u64,
    globals: J::Globals,
    elements: Arc<Container<J::Element>, Global>,
    client: Client,
    cache: EventCache,
}

impl<J: Job> Model for Engine<J> {
    ghost use Rattle.std.specs.Arc.{arc_value};
    ghost use Rattle.cycle_engine.specs.Engine.{EngineState, Fits, is_terminate};

    ghost Value = { EngineState J J.Globals J.Element };

    ghost view = { λ e. record {
      job = arc_value e.job;
      format = e.format;
      state = record { globals = e.globals; elements = arc_value e.elements; seed = e.client.seed };
      cycles = e.client.cycle;
      cycle_time = e.cycle_time;
      rings = e.cache;
      stopped = is_terminate e.client.last;
    } };

    ghost invariant = { λ e.
        Fits J.meaning J.Own (arc_value e.job) (arc_value e.elements)
        e.client e.cache e.cycle_time };
}

/// Adds these samples to the cache, and shows them to the next cycle.
fn feed_samples(cache: &mut EventCache, samples: &[Sample])
    requires { All (λ s. s.event < length cache.old) samples.now }
    ensures count { length cache.new ≡ length cache.old }
    ensures seen { (events : List EventSpecValue) (rounds : List (List SampleValue))
        → HasSeen cache.old events rounds []
        → HasSeen cache.new events (rounds ++ samples.now ∷ []) [] }
    ensures windows { (events : List EventSpecValue) (rounds : List (List SampleValue))
        → HasSeen cache.old events rounds []
        → windows cache.new ≡ next_windows events (windows cache.old) samples.now }
{
    for sample in samples {
        cache.arrive(*sample);
    }
    cache.turn();
}

/// The run in a `Frame::Run`.
fn run_of_frame(frame: Frame) -> RunFrame
    requires { (run : Run) × (frame ≡ Frame.Run run) }
    ensures { frame ≡ Frame.Run result }
{
    match frame {
        Frame::Run(run) => run,
        _ => unreachable!(),
    }
}

/// The frame of a cycle, reduced to what a format keeps.
fn frame_in_format(format: Format, input: CycleInput, outcome: Outcome) -> RunFrame
    ensures { result ≡ record { input = input; outcome = outcome_in_format format outcome } }
{
    let mut frame = Frame::Run(RunFrame { input, outcome });
    reduce_to_format(format, &mut frame);
    run_of_frame(frame)
}

impl<J: Job> Engine<J> {
    /// Starts the job of a profile: brings a new client through its first three activations, and
    /// makes the job's elements.
    pub fn start(alloc: Global, job: J, profile: &Profile) -> Result<Engine<J>, AllocError>
        requires good { J.meaning.bad_param profile.now.params (length profile.now.events) ≡ None }
        requires made { job ≡ J.meaning.made profile.now.params (length profile.now.events) }
        ensures stands { IfOk result (λ engine. StandsFor J.meaning profile.now engine []) }
        ensures going { IfOk result (λ engine. engine.stopped ≡ false) }
    {
        let cache = EventCache::new(alloc, &profile.events)?;
        let _events = cache.events();
        let mut client = Client::new(profile.cycle_time);
        client.set_random_seed(profile.seed);
        let _ = client.wait_for_activation(Next::Go(None));
        let _ = client.wait_for_activation(Next::Go(None));
        let _ = client.wait_for_activation(Next::Go(None));
        let begun = job.start(alloc, &mut client)?;
        let job = new_shared(alloc, job)?;
        let elements = new_shared(alloc, begun.elements)?;
        Ok(Engine {
            job,
            format: profile.format,
            cycle_time: profile.cycle_time,
            globals: begun.globals,
            elements,
            client,
            cache,
        })
    }

    /// The bytes of the present elements, in order.
    pub fn shown(&self, alloc: Global) -> Result<Elements, AllocError>
        ensures { IfOk result (λ shown.
            shown ≡ map (J.meaning.shown self.now.job) self.now.state.elements) }
    {
        let mut shown = Elements::new(alloc);
        let mut bytes = Vec::new(alloc);
        for i in 0..self.elements.len() {
            bytes.clear();
            self.job.put_element(self.elements.item(i), &mut bytes)?;
            shown.push(Bytes64::from_slice(bytes.as_slice()))?;
        }
        Ok(shown)
    }

    /// Appends the bytes of the present elements in order, each after their number in two bytes. A
    /// call that fails may leave some of them.
    pub fn put_elements(&self, out: &mut Vec<u8>) -> Result<(), AllocError>
        ensures { OnOk result (out.new.items ≡ out.old.items ++ flat_map with_length
            (map (J.meaning.shown self.now.job) self.now.state.elements)) }
    {
        for i in 0..self.elements.len() {
            put_element(&*self.job, self.elements.item(i), out)?;
        }
        Ok(())
    }

    /// Runs the phases of the next cycle. The windows, globals and elements stay.
    fn run_phases<P: Pool<J>>(
        &mut self,
        desk: &mut Desk<J>,
        pool: &mut P,
        time: Option<u64>,
    ) -> Result<CycleDone<J::Globals, J::Element>, CycleFault>
        requires few { self.old.cycles < 1000000 }
        requires going { self.old.stopped ≡ false }
        ensures cycle { IsCycle result self.new.state.seed (next_cycle J.meaning self.old time) }
        ensures kept { self.new ≡ record self.old {
          state = record self.old.state { seed = self.new.state.seed };
          cycles = self.old.cycles + 1;
        } }
        ensures own { IfOk result (λ done. All (J.Own self.old.job) (arc_value done.elements)) }
        ensures few { IfOk result (λ done. length (arc_value done.elements) ≤ 65536) }
    {
        let _ = self.client.wait_for_activation(Next::Go(time));
        let plan = match self.job.prepare(
            desk.alloc(),
            &self.globals,
            &*self.elements,
            &self.cache,
            &mut self.client,
            &mut desk.plans.spare,
        ) {
            Ok(plan) => plan,
            Err(fault) => return Err(in_job(Phase::Prepare, fault)),
        };
        let plan = desk.share_plan(plan)?;
        let passes = Passes {
            job: &self.job,
            plan: &plan,
            seed: self.client.seed(),
            cycle: self.client.cycle(),
        };
        let done = passes.cycle(pool, &self.globals, &self.elements, desk);
        desk.plans.keep(plan);
        done
    }

    /// Runs the next cycle. The windows stay: the samples of a cycle arrive after it. So after "out
    /// of memory" only the client must be restored.
    fn advance<P: Pool<J>>(
        &mut self,
        desk: &mut Desk<J>,
        pool: &mut P,
        time: Option<u64>,
    ) -> Result<Outcome, AllocError>
        requires few { self.old.cycles < 1000000 }
        requires going { self.old.stopped ≡ false }
        ensures outcome { IfOk result (λ outcome.
            outcome ≡ outcome_of (next_cycle J.meaning self.old time)) }
        ensures after { OnOk result (self.new ≡ record self.old {
          state = state_after self.old.state (next_cycle J.meaning self.old time);
          cycles = self.old.cycles + 1;
        }) }
        ensures kept { OnErr result (self.new ≡ self.old) }
    {
        let seed = self.client.seed();
        let cycles = self.client.cycle();
        match self.run_phases(desk, pool, time) {
            Ok(done) => {
                self.globals = done.globals;
                let old = mem::replace(&mut self.elements, done.elements);
                desk.keep_elements(old);
                Ok(Outcome::Finished {
                    elements: done.shown,
                    output: done.output,
                })
            }
            Err(fault) => match fault.outcome() {
                Ok(outcome) => {
                    self.client.set_random_seed(seed);
                    Ok(outcome)
                }
                Err(no_memory) => {
                    self.client = Client::resume_at(self.cycle_time, seed, cycles);
                    Err(no_memory)
                }
            },
        }
    }

    /// Runs the next cycle, with its passes on `pool`, and returns its frame. It takes memory from
    /// `desk` while there is some.
    ///
    /// The windows of the cycle hold only samples of earlier cycles. The input's samples arrive at
    /// its end, even if it is refused. A refused cycle keeps globals, elements and seed, and counts
    /// as a cycle. After `AllocError` the engine is as before the call, and the input is lost.
    pub fn cycle<P: Pool<J>>(
        &mut self,
        desk: &mut Desk<J>,
        pool: &mut P,
        input: CycleInput,
    ) -> Result<RunFrame, AllocError>
        requires few { self.old.cycles < 1000000 }
        requires events { All (λ s. s.event < length self.old.rings) input.samples }
        requires going { self.old.stopped ≡ false }
        ensures frame { IfOk result (λ frame. (profile : ProfileValue) (inputs : List Input)
            → StandsFor J.meaning profile self.old inputs
            → frame ≡ frame_of J.meaning profile inputs (state_of J.meaning profile inputs) input) }
        ensures stands { OnOk result ((profile : ProfileValue) (inputs : List Input)
            → StandsFor J.meaning profile self.old inputs
            → StandsFor J.meaning profile self.new (inputs ++ input ∷ [])) }
        ensures outcome { IfOk result (λ frame. frame ≡ next_frame J.meaning self.old input) }
        ensures after { OnOk result (IsAfter J.meaning self.old input self.new) }
        ensures kept { OnErr result (self.new ≡ self.old) }
    {
        let outcome = self.advance(desk, pool, input.time)?;
        feed_samples(&mut self.cache, input.samples.as_slice());
        Ok(frame_in_format(self.format, input, outcome))
    }

    /// Ends the run: requests the activation `Terminate`. It allocates nothing.
    pub fn stop(&mut self)
        ensures { self.new ≡ record self.old { stopped = true } }
    {
        let _ = self.client.wait_for_activation(Next::Stop);
    }

    /// The number of elements, which never changes in a run.
    pub fn elements(&self) -> usize
        ensures count { result ≡ length self.now.state.elements }
        ensures few { result ≤ 65536 }
    {
        self.elements.len()
    }

    /// The number of cycles run, including refused ones.
    pub fn cycles(&self) -> u32
        ensures { result ≡ self.now.cycles }
    {
        self.client.cycle()
    }

    /// The present seed.
    pub fn seed(&self) -> u64
        ensures { result ≡ self.now.state.seed }
    {
        self.client.seed()
    }
}
