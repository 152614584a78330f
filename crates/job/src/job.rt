//! The trait `Job`: the calls of an application, in the order in which an engine makes them.

ghost use Rattle.std.specs.Prelude.{◌≡◌, ℕ, ◌<◌, ◌≤◌, ◌++◌, List, length, None, Some, MatchResult};
ghost use Rattle.std.specs.Prelude.{◌+◌, IfOk, OnOk, OnErr};
ghost use Rattle.std.specs.Vec.{vec_capacity, vec_len};
ghost use Rattle.std.specs.List.{All};
ghost use Rattle.det_client.specs.element_random.RandomStreams.{StandsFor, key};
ghost use Rattle.det_client.specs.State.{next_time, OwnAt, SameButSeed};
ghost use Rattle.job.specs.event_cache.Rings.{windows};

use crate::event_cache::EventCache;
use crate::{BadParam, Conclusion, JobFault, JobStart};
use det_client::element_random::ElementRandom;
use det_client::{Activation, Client};
use det_values::put::fill_u16;
use det_values::{Bytes, Container, Params};
use std::alloc::{AllocError, Global};

/// A cyclic application over a container of elements. Its parameters and the number of events
/// determine it.
///
/// A `spare` value is no longer needed. A call may reuse its memory, whatever it holds, so that
/// later cycles need no new memory. A call that refuses leaves it for the next cycle. If it were
/// passed by value, each implementation would have to repeat the clauses of the method.
///
/// `meaning` defines the results of all calls. `Own` holds for the elements that the job can have,
/// and `Fit` for its plans. `Covers` relates a part to the number of elements that it may come
/// from. Each implementation proves `laws` about these. The calls ensure `Fit`, `Own` and `Covers`
/// of their results, so generic code cites no law for these. Only for the part that `run` leaves it
/// needs the laws `covers_run` and `covers_joined`.
pub trait Job: Sized + Drop {
    ghost use Rattle.job.specs.Meaning.{Meaning, Agrees, AgreesWithSeed, AgreesWithPart};
    ghost use Rattle.job.specs.Meaning.{joined_to, UnlessNoMemory};
    ghost use Rattle.job.specs.Laws.{JobLaws, CoversSome, CoverTogether, CoversBoth};
    ghost use Rattle.det_values.specs.Spelling.{Grows, an_element, spelled_drawn};

    /// The state that stays between cycles besides the elements.
    type Globals: Drop;

    /// One element of the container.
    type Element: Drop;

    /// The result of a cycle's sequential begin, which all its passes read.
    type Plan: Drop;

    /// The result that a pass gathers from its elements. The next pass, or the end of the cycle,
    /// reads it.
    type Part: Drop;

    ghost meaning: { Meaning Self Self.Globals Self.Element Self.Plan Self.Part };

    ghost Covers: { Self → Self.Part → ℕ → Type 0 };

    ghost Own: { Self → Self.Element → Type 0 };

    ghost Fit: { Self → Self.Plan → Type 0 };

    /// The job with these parameters. It allocates nothing.
    fn make(params: &Params, events: u16) -> Result<Self, BadParam>
        ensures { MatchResult result
            (λ job. (meaning.bad_param params.now events ≡ None)
            × (job ≡ meaning.made params.now events))
            (λ bad. meaning.bad_param params.now events ≡ Some bad.index) };

    /// The elements and globals of a new run. The client is in Init, which belongs to cycle 0. The
    /// job may draw from it and set its seed.
    fn start(
        &self,
        alloc: Global,
        client: &mut Client,
    ) -> Result<JobStart<Self::Globals, Self::Element>, AllocError>
        requires init { client.old.last ≡ Some Activation.Init }
        requires beginning { StandsFor client.old.own (key client.old.seed 0 255 0) 0 }
        ensures gives { IfOk result (λ begun. meaning.started self.now client.old.seed
            ≡ record {
              globals = begun.globals;
              elements = begun.elements;
              seed = client.new.seed;
            }) }
        ensures own { IfOk result (λ begun. All (Own self.now) begun.elements) }
        ensures few { IfOk result (λ begun. length begun.elements ≤ 65536) }
        ensures same { SameButSeed client.old client.new };

    /// The sequential begin of a cycle. The client is in that cycle. The job may draw from it and
    /// set its seed.
    fn prepare(
        &self,
        alloc: Global,
        globals: &Self::Globals,
        elements: &Container<Self::Element>,
        cache: &EventCache,
        client: &mut Client,
        spare: &mut Option<Self::Plan>,
    ) -> Result<Self::Plan, JobFault>
        requires own { All (Own self.now) elements.now }
        requires events { length (windows cache.now) ≡ meaning.events self.now }
        requires running { client.old.last ≡ Some Activation.Run }
        requires beginning { OwnAt client.old 0 }
        ensures gives { AgreesWithSeed result client.new.seed
            (meaning.prepared self.now globals.now elements.now (windows cache.now) client.old.seed
            client.old.cycle client.old.time (next_time client.old.cycle_time client.old.time)) }
        ensures fit { IfOk result (λ plan. Fit self.now plan) }
        ensures same { SameButSeed client.old client.new };

    /// The number of passes of a plan. It allocates nothing.
    fn passes(&self, plan: &Self::Plan) -> u8
        requires { Fit self.now plan.now }
        ensures gives { result ≡ meaning.passes_of self.now plan.now }
        ensures least { 1 ≤ result }
        ensures most { result ≤ 8 };

    /// The part of no elements. It allocates nothing.
    fn unit(&self, alloc: Global, spare: &mut Option<Self::Part>) -> Self::Part
        ensures gives { result ≡ meaning.unit_part self.now }
        ensures covers { Covers self.now result 0 };

    /// Runs one element in a pass. It returns the element's new value, and joins the element's part
    /// to `part`, which comes from the elements before it. It joins in place, so a part with memory
    /// is made once a block and not once an element. `carry` is the part of the pass before, or the
    /// unit in the first pass. `random` is the element's own stream. A call that fails may leave
    /// any part.
    ///
    /// A late thread may run an element a second time, even after the end of its pass. That result
    /// is dropped. So a job must have no effect except through its arguments.
    fn run(
        &self,
        alloc: Global,
        plan: &Self::Plan,
        carry: &Self::Part,
        pass: u8,
        element: &Self::Element,
        random: &mut ElementRandom,
        part: &mut Self::Part,
    ) -> Result<Self::Element, JobFault>
        requires fit { Fit self.now plan.now }
        requires carry { CoversSome (Covers self.now) carry.now }
        requires pass { pass < meaning.passes_of self.now plan.now }
        requires own { Own self.now element.now }
        requires random { (key : ℕ) × StandsFor random.old key 0 }
        requires room { (n : ℕ) × (n < 65536) × Covers self.now part.old n }
        ensures gives { (key : ℕ) → StandsFor random.old key 0
            → AgreesWithPart result part.new (joined_to (meaning.joined self.now) part.old
            (meaning.worked self.now plan.now carry.now pass element.now key)) }
        ensures draws { (key : ℕ) → StandsFor random.old key 0 → UnlessNoMemory result
            (random.new.draws ≡ meaning.drawn self.now plan.now carry.now pass element.now key) }
        ensures own { IfOk result (λ element. Own self.now element) };

    /// Joins the part of the right neighbour to `left`. The rest of `right` is only kept for its
    /// memory.
    fn merge(&self, left: &mut Self::Part, right: &mut Self::Part) -> Result<(), AllocError>
        requires { CoverTogether (Covers self.now) left.old right.old }
        ensures gives { OnOk result (left.new ≡ meaning.joined self.now left.old right.old) }
        ensures covers { OnOk result (
            CoversBoth (Covers self.now) left.old right.old left.new) };

    /// Appends an element's bytes for a record, at most 64. Different elements of the job have
    /// different bytes. A call that fails may leave some of them. It needs no memory if `out` has
    /// room for 64 bytes.
    fn put_element(&self, element: &Self::Element, out: &mut Vec<u8>) -> Result<(), AllocError>
        requires { Own self.now element.now }
        ensures ok { OnOk result (out.new.items ≡ out.old.items
            ++ meaning.shown self.now element.now) }
        ensures short { OnOk result (length (meaning.shown self.now element.now) ≤ 64) }
        ensures grows { Grows out.old.items out.new.items }
        ensures room { vec_capacity out.old ≤ vec_capacity out.new }
        ensures full { OnErr result (vec_capacity out.old < vec_len out.old + 64) };

    /// Appends an element as in a frame: the number of its bytes in two bytes, the bytes, and its
    /// draws in four. A job may override this with a single append, which is faster. It needs no
    /// memory if `out` has room for 70 bytes.
    #[inline(always)]
    fn put_drawn(
        &self,
        element: &Self::Element,
        draws: u32,
        out: &mut Vec<u8>,
    ) -> Result<(), AllocError>
        requires { Own self.now element.now }
        ensures ok { OnOk result (out.new.items ≡ out.old.items
            ++ spelled_drawn (an_element (meaning.shown self.now element.now) draws)) }
        ensures room { vec_capacity out.old ≤ vec_capacity out.new }
        ensures full { OnErr result (vec_capacity out.old < vec_len out.old + 70) }
    {
        let at = out.len();
        out.extend_from_slice(&[0, 0])?;
        self.put_element(element, out)?;
        let length = out.len() - at - 2;
        fill_u16(out, at, length as u16);
        out.extend_from_slice(&draws.to_be_bytes())?;
        Ok(())
    }

    /// The sequential end of a cycle. `part` is that of the last pass.
    fn conclude(
        &self,
        alloc: Global,
        globals: &Self::Globals,
        plan: &Self::Plan,
        part: &Self::Part,
        spare: &mut Option<Bytes>,
    ) -> Result<Conclusion<Self::Globals>, JobFault>
        requires fit { Fit self.now plan.now }
        requires part { CoversSome (Covers self.now) part.now }
        ensures { Agrees result (meaning.concluded self.now globals.now plan.now part.now) };

    ghost laws: { JobLaws meaning Covers Own Fit };
}
