//! The client, `ara::exec::DeterministicClient` without its worker pool. Its contracts come in two
//! forms: about the list of all calls, and about the state before and after one call.

ghost use Rattle.std.specs.Prelude.{◌≡◌, ℕ, ◌+◌, ◌^◌, ◌<◌, ◌≤◌, List, [], ◌∷◌, ◌++◌, None, Some};
ghost use Rattle.std.specs.Prelude.{IfOk, OnErr, MatchResult, false, ◌==◌, if◌then◌else◌};
ghost use Rattle.std.specs.Prelude.{replicate};
ghost use Rattle.det_client.specs.element_random.RandomStreams.{key, word, StandsFor};
ghost use Rattle.det_client.specs.State.{next_time, OwnAt, SameButSeed, own_place};
ghost use Rattle.det_client.specs.Life.{Life, answer, cycle_of, time_of, is_stop};
ghost use Rattle.det_client.specs.Step.{Stepped};
ghost use Rattle.det_client.specs.Calls.{Call, ComesFrom, seed_of, own_word, calls_to_resume};
ghost use Rattle.det_client.specs.Calls.Call.{waits, reseeds, draws};

use crate::activation::{Activation, Next};
use crate::element_random::{ElementRandom, key};
use std::marker::Model;

/// No time is available: no cycle runs, its request carried no time, or the time exceeds a `u64`.
#[derive(Clone, Copy, Debug, PartialEq, Eq)]
pub struct NotAvailable;

/// The most cycles of a run. Records have the same limit (docs/FORMATS.md).
pub const MOST_CYCLES: u32 = 1_000_000;

/// The client of one process.
#[derive(Debug, Drop)]
pub struct Client {
    cycle_time: u64,
    last: Option<Activation>,
    time: Option<u64>,
    seed: u64,
    cycle: u32,
    /// None until the first number is drawn in a cycle or under a new seed.
    own: Option<ElementRandom>,
}

impl Model for Client {
    ghost use Rattle.det_client.specs.State.{State, own_place};

    ghost Value = { State };

    ghost view = { λ c. record {
      cycle_time = c.cycle_time;
      last = c.last;
      time = c.time;
      seed = c.seed;
      cycle = c.cycle;
      own = own_place c.own c.seed c.cycle;
    } };
}

/// The client's own stream of random numbers in a cycle, at its beginning.
fn own_stream(seed: u64, cycle: u32) -> ElementRandom
    ensures { StandsFor result (key seed cycle 255 0) 0 }
{
    ElementRandom::from_key(key(seed, cycle, 255, 0))
}

/// The own stream in a cycle: the given one, or a new one if no number was drawn yet.
fn continue_own_stream(own: Option<ElementRandom>, seed: u64, cycle: u32) -> ElementRandom
    ensures { (k n : ℕ) → StandsFor (own_place own seed cycle) k n → StandsFor result k n }
{
    match own {
        Some(own) => own,
        None => own_stream(seed, cycle),
    }
}

impl Client {
    /// A client before its first activation, with the seed 0 and a cycle time in nanoseconds.
    pub fn new(cycle_time: u64) -> Client
        requires some_time { 1 ≤ cycle_time }
        requires short { cycle_time < 2 ^ 63 }
        ensures calls { ComesFrom result cycle_time [] }
        ensures life { Life result [] }
        ensures seed { result.seed ≡ 0 }
        ensures cycle_time { result.cycle_time ≡ cycle_time }
        ensures own { OwnAt result 0 }
    {
        Client {
            cycle_time,
            last: None,
            time: None,
            seed: 0,
            cycle: 0,
            own: None,
        }
    }

    /// A client between two activations, for a run that goes on. It equals a new client after `3 +
    /// cycle` requests without a time, with this seed set at last.
    pub fn resume_at(cycle_time: u64, seed: u64, cycle: u32) -> Client
        requires some_time { 1 ≤ cycle_time }
        requires short { cycle_time < 2 ^ 63 }
        requires few_cycles { cycle ≤ MOST_CYCLES }
        ensures calls { ComesFrom result cycle_time (calls_to_resume seed cycle) }
        ensures life { Life result (replicate (3 + cycle) (Next.Go None)) }
        ensures last { result.last ≡ Some (if cycle == 0 then Activation.Init else Activation.Run) }
        ensures time { result.time ≡ None }
        ensures cycle { result.cycle ≡ cycle }
        ensures seed { result.seed ≡ seed }
        ensures cycle_time { result.cycle_time ≡ cycle_time }
        ensures own { OwnAt result 0 }
    {
        let last = if cycle == 0 {
            Activation::Init
        } else {
            Activation::Run
        };
        Client {
            cycle_time,
            last: Some(last),
            time: None,
            seed,
            cycle,
            own: None,
        }
    }

    /// The client with these parts, as its accessors of the same names returned them. The C
    /// interface stores a client so.
    pub fn from_parts(
        cycle_time: u64,
        last: Option<Activation>,
        time: Option<u64>,
        seed: u64,
        cycle: u32,
        own: ElementRandom,
    ) -> Client
        ensures cycle_time { result.cycle_time ≡ cycle_time }
        ensures last { result.last ≡ last }
        ensures time { result.time ≡ time }
        ensures seed { result.seed ≡ seed }
        ensures cycle { result.cycle ≡ cycle }
        ensures own { result.own ≡ own }
    {
        Client {
            cycle_time,
            last,
            time,
            seed,
            cycle,
            own: Some(own),
        }
    }

    /// The last activation, or None before the first request.
    pub fn last(&self) -> Option<Activation>
        ensures { result ≡ self.now.last }
    {
        self.last
    }

    /// The time of the present cycle in nanoseconds, if one runs and its request carried a time.
    pub fn time(&self) -> Option<u64>
        ensures { result ≡ self.now.time }
    {
        self.time
    }

    /// The period of cycles, in nanoseconds.
    pub fn cycle_time(&self) -> u64
        ensures { result ≡ self.now.cycle_time }
    {
        self.cycle_time
    }

    /// A copy of the client's own stream in its present state.
    pub fn own(&self) -> ElementRandom
        ensures { (k n : ℕ) → StandsFor self.now.own k n → result ≡ self.now.own }
    {
        match &self.own {
            Some(own) => ElementRandom::from_parts(own.state(), own.draws()),
            None => own_stream(self.seed, self.cycle),
        }
    }

    fn step(&mut self, next: Next) -> Activation
        requires { is_stop next ≡ false → self.old.cycle < MOST_CYCLES }
        ensures { Stepped self.old next result self.new }
    {
        let activation = next.activation_after(self.last);
        self.last = Some(activation);
        self.time = None;
        match activation {
            Activation::Run => {
                self.cycle += 1;
                self.time = next.time();
                self.own = None;
            }
            Activation::Init => self.own = None,
            _ => (),
        }
        activation
    }

    /// Returns what to do next. After a stop, now or earlier, that is to end.
    pub fn wait_for_activation(&mut self, next: Next) -> Activation
        requires { is_stop next ≡ false → self.old.cycle < MOST_CYCLES }
        ensures answer { (given : List Next) → Life self.old given
            → result ≡ answer (given ++ next ∷ []) }
        ensures life { (given : List Next) → Life self.old given
            → Life self.new (given ++ next ∷ []) }
        ensures calls { (t : ℕ) (calls : List Call) → ComesFrom self.old t calls
            → ComesFrom self.new t (calls ++ waits next ∷ []) }
        ensures step { Stepped self.old next result self.new }
    {
        self.step(next)
    }

    /// The time of the present cycle in nanoseconds, if one runs and its request carried a time.
    pub fn get_activation_time(&self) -> Result<u64, NotAvailable>
        ensures life { (given : List Next) → Life self.now given
            → MatchResult result (λ t. time_of given ≡ Some t) (λ _. time_of given ≡ None) }
        ensures known { IfOk result (λ t. self.now.time ≡ Some t) }
        ensures unknown { OnErr result (self.now.time ≡ None) }
    {
        self.time.ok_or(NotAvailable)
    }

    /// The time of the next cycle in nanoseconds: the present time plus the cycle time.
    pub fn get_next_activation_time(&self) -> Result<u64, NotAvailable>
        ensures life { (given : List Next) → Life self.now given
            → MatchResult result
            (λ t. next_time self.now.cycle_time (time_of given) ≡ Some t)
            (λ _. next_time self.now.cycle_time (time_of given) ≡ None) }
        ensures known { IfOk result (λ t. next_time self.now.cycle_time self.now.time ≡ Some t) }
        ensures unknown { OnErr result (next_time self.now.cycle_time self.now.time ≡ None) }
    {
        let time = self.get_activation_time()?;
        time.checked_add(self.cycle_time).ok_or(NotAvailable)
    }

    /// Sets the seed of the random numbers inside and outside the pool, and restarts the own
    /// stream.
    pub fn set_random_seed(&mut self, seed: u64)
        ensures calls { (t : ℕ) (calls : List Call) → ComesFrom self.old t calls
            → ComesFrom self.new t (calls ++ reseeds seed ∷ []) }
        ensures seed { self.new.seed ≡ seed }
        ensures same { SameButSeed self.old self.new }
        ensures own { OwnAt self.new 0 }
    {
        self.own = None;
        self.seed = seed;
    }

    /// Draws the next random number of the own stream. The stream is seeded here and not earlier,
    /// since most cycles draw none.
    pub fn get_random(&mut self) -> u64
        ensures own_word { (t : ℕ) (calls : List Call) → ComesFrom self.old t calls
            → result ≡ own_word calls }
        ensures calls { (t : ℕ) (calls : List Call) → ComesFrom self.old t calls
            → ComesFrom self.new t (calls ++ draws ∷ []) }
        ensures word { (k n : ℕ) → StandsFor self.old.own k n → result ≡ word k n }
        ensures goes_on { (k n : ℕ) → StandsFor self.old.own k n
            → StandsFor self.new.own k (n + 1) }
        ensures seed { self.new.seed ≡ self.old.seed }
        ensures same { SameButSeed self.old self.new }
    {
        let mut own = continue_own_stream(self.own.take(), self.seed, self.cycle);
        let word = own.get_random();
        self.own = Some(own);
        word
    }

    /// The present seed.
    pub fn seed(&self) -> u64
        ensures calls { (t : ℕ) (calls : List Call) → ComesFrom self.now t calls
            → result ≡ seed_of calls }
        ensures seed { result ≡ self.now.seed }
    {
        self.seed
    }

    /// The number of the present cycle, counted from 1; 0 before the first one.
    pub fn cycle(&self) -> u32
        ensures life { (given : List Next) → Life self.now given → result ≡ cycle_of given }
        ensures cycle { result ≡ self.now.cycle }
    {
        self.cycle
    }
}
