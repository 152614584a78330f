//! The parts of an item, read from its bytes by its view. The item was checked before, so no read
//! fails.
ghost use Rattle.std.specs.Prelude.{◌≡◌, ◌≤◌, ℕ, List, length, drop, map};
ghost use Rattle.det_values.specs.declared.frames.CycleInput.{CycleInput};
ghost use Rattle.det_values.specs.declared.frames.Outcome.{Outcome};
ghost use Rattle.det_values.specs.declared.frames.Outcome.TheVariants as outcomes;
ghost use Rattle.record_grammar.specs.Read.{Got, many};
ghost use Rattle.record_grammar.specs.Grammar.{element_at};
ghost use Rattle.record_view.specs.Shows.{ShowsInput, ShowsFinished, ShowsRefused};
ghost use Rattle.record_view.specs.Parts.{undrawn, ElementsOf, OutputOf};

use crate::field::{output, rest_of};
use crate::input::refusal;
use crate::view::InputView;
use crate::walk::{ElementWalk, SampleWalk};
use det_values::{Format, RefusedAt};

/// The samples of a cycle.
pub fn view_samples(events: u16, places: InputView, bytes: &[u8]) -> SampleWalk<'_>
    requires { (input : CycleInput) × ShowsInput events places bytes.now input }
    ensures is { (input : CycleInput) → ShowsInput events places bytes.now input
        → result ≡ input.samples }
    ensures count { length result ≡ places.samples }
{
    SampleWalk {
        events,
        rest: rest_of(bytes, places.samples_at),
        left: places.samples,
    }
}

/// The elements of an Init frame, with draws of 0.
pub fn view_init_elements(count: u32, bytes: &[u8]) -> ElementWalk<'_>
    requires { (elements : List (List ℕ)) × (rest : List ℕ)
        × (many element_at count (drop 5 bytes.now) ≡ Got (elements, rest))
        × (5 ≤ length bytes.now) }
    ensures is { (elements : List (List ℕ)) (rest : List ℕ)
        → many element_at count (drop 5 bytes.now) ≡ Got (elements, rest)
        → result ≡ map undrawn elements }
    ensures count { length result ≡ count }
{
    ElementWalk {
        format: Format::One,
        rest: rest_of(bytes, 5),
        left: count,
    }
}

/// The elements of a finished cycle.
pub fn view_elements(format: Format, count: u32, at: usize, bytes: &[u8]) -> ElementWalk<'_>
    requires { (output_at len : ℕ) × (outcome : Outcome)
        × ShowsFinished format count at output_at len bytes.now outcome }
    ensures is { (output_at len : ℕ) (outcome : Outcome)
        → ShowsFinished format count at output_at len bytes.now outcome
        → ElementsOf result outcome }
    ensures count { length result ≡ count }
{
    ElementWalk {
        format,
        rest: rest_of(bytes, at),
        left: count,
    }
}

/// The output of a finished cycle.
pub fn view_output(output_at: usize, bytes: &[u8]) -> &[u8]
    requires { (format : Format) × (count at len : ℕ) × (outcome : Outcome)
        × ShowsFinished format count at output_at len bytes.now outcome }
    ensures { (format : Format) (count at len : ℕ) (outcome : Outcome)
        → ShowsFinished format count at output_at len bytes.now outcome
        → OutputOf result.now outcome }
{
    match output(rest_of(bytes, output_at)) {
        Ok((seen, _)) => seen,
        Err(_) => unreachable!(),
    }
}

/// The place and the code of a refused cycle.
pub fn view_refusal(at: usize, bytes: &[u8]) -> RefusedAt
    requires { (len : ℕ) × (outcome : Outcome) × ShowsRefused at len bytes.now outcome }
    ensures { (len : ℕ) (outcome : Outcome) → ShowsRefused at len bytes.now outcome → outcome
        ≡ outcomes.Refused result }
{
    match refusal(rest_of(bytes, at)) {
        Ok((place, _)) => place,
        Err(_) => unreachable!(),
    }
}
