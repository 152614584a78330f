//! The struct of a frame, from its view.
ghost use Rattle.std.specs.Prelude.{◌≡◌, ℕ, List, drop, if◌then◌else◌};
ghost use Rattle.det_values.specs.declared.format.Format.TheVariants.{One, Two};
ghost use Rattle.det_values.specs.declared.frames.CycleInput.{CycleInput};
ghost use Rattle.det_values.specs.declared.frames.Outcome.{Outcome};
ghost use Rattle.det_values.specs.declared.frames.Outcome.TheVariants as outcomes;
ghost use Rattle.det_values.specs.declared.frames.Frame.{Frame};
ghost use Rattle.det_values.specs.declared.frames.Frame.TheVariants as frames;
ghost use Rattle.record_grammar.specs.Read.{Got, many};
ghost use Rattle.record_grammar.specs.Grammar.{element_at};
ghost use Rattle.record_grammar.specs.declared.item.Item.TheVariants as items;
ghost use Rattle.record_view.specs.Shows.{ShowsInput, ShowsFinished, ShowsRefused, ShowsOutcome};
ghost use Rattle.record_view.specs.Shows.{ShowsFrame, ShowsParts, events_of};
ghost use Rattle.c_types.specs.CValues.{place_of_refusal};
ghost use Rattle.det_reading_c.specs.Frames.{IsFrameAt, HasNoParts, cycle_frame};

use crate::number::{rest_from, u8_from, u32_from};
use c_types::{DetFrame, DetRefusal, DetTime};
use det_values::Format;
use record_grammar::Place;
use record_view::{FrameKind, InputView, ItemKind, ItemSpan, OutcomeView, format_at};

fn no_refusal() -> DetRefusal {
    DetRefusal {
        element: 0,
        code: 0,
        phase: 0,
        pass: 0,
    }
}

fn bare_frame(tag: u8, length: usize) -> DetFrame
    ensures length { result.length ≡ length }
    ensures tag { result.tag ≡ tag }
    ensures parts { HasNoParts result }
{
    DetFrame {
        length,
        samples: 0,
        elements: 0,
        output: 0,
        time: DetTime::from_time(None),
        refusal: no_refusal(),
        sample_count: 0,
        element_count: 0,
        output_count: 0,
        tag,
        refused: false,
        has_draws: false,
    }
}

fn init_frame(elements: u32, length: usize) -> DetFrame
    ensures length { result.length ≡ length }
    ensures parts { (events : ℕ) (bytes rest : List ℕ) (values : List (List ℕ))
        → many element_at elements (drop 5 bytes) ≡ Got (values, rest)
        → IsFrameAt events result bytes (frames.Init values) }
{
    DetFrame {
        length,
        samples: 0,
        elements: 5,
        output: 0,
        time: DetTime::from_time(None),
        refusal: no_refusal(),
        sample_count: 0,
        element_count: elements,
        output_count: 0,
        tag: 3,
        refused: false,
        has_draws: false,
    }
}

fn spells_draws(format: Format) -> bool
    ensures { (if result then Two else One) ≡ format }
{
    match format {
        Format::One => false,
        Format::Two => true,
    }
}

/// The elements of a finished cycle, and where its output is.
#[derive(Clone, Copy, Drop)]
struct FinishedView {
    format: Format,
    elements: u32,
    elements_at: usize,
    output_at: usize,
}

fn finished_frame(input: InputView, view: FinishedView, length: usize, bytes: &[u8]) -> DetFrame
    ensures length { result.length ≡ length }
    ensures parts { (events : ℕ) (given : CycleInput) (outcome : Outcome)
        → ShowsInput events input bytes.now given
        → ShowsFinished view.format view.elements view.elements_at view.output_at length bytes.now
        outcome → IsFrameAt events result bytes.now (cycle_frame given outcome) }
{
    let output_count = u32_from(bytes, view.output_at);
    DetFrame {
        length,
        samples: input.samples_at,
        elements: view.elements_at,
        output: length.saturating_sub(output_count as usize),
        time: DetTime::from_time(input.time),
        refusal: no_refusal(),
        sample_count: input.samples,
        element_count: view.elements,
        output_count,
        tag: 4,
        refused: false,
        has_draws: spells_draws(view.format),
    }
}

fn refusal_from(bytes: &[u8], at: usize) -> DetRefusal
    ensures { (length : ℕ) (outcome : Outcome) → ShowsRefused at length bytes.now outcome
        → outcome ≡ outcomes.Refused (place_of_refusal result) }
{
    let refusal = rest_from(bytes, at);
    let phase = u8_from(refusal, 0);
    let pass = u8_from(refusal, 1);
    let element = u32_from(refusal, 2);
    let code = u32_from(refusal, 6);
    DetRefusal {
        element,
        code,
        phase,
        pass,
    }
}

fn refused_frame(input: InputView, at: usize, length: usize, bytes: &[u8]) -> DetFrame
    ensures length { result.length ≡ length }
    ensures parts { (events : ℕ) (given : CycleInput) (outcome : Outcome)
        → ShowsInput events input bytes.now given
        → ShowsRefused at length bytes.now outcome
        → IsFrameAt events result bytes.now (cycle_frame given outcome) }
{
    DetFrame {
        length,
        samples: input.samples_at,
        elements: 0,
        output: 0,
        time: DetTime::from_time(input.time),
        refusal: refusal_from(bytes, at),
        sample_count: input.samples,
        element_count: 0,
        output_count: 0,
        tag: 4,
        refused: true,
        has_draws: false,
    }
}

fn cycle_struct(
    format: Format,
    input: InputView,
    outcome: OutcomeView,
    length: usize,
    bytes: &[u8],
) -> DetFrame
    ensures length { result.length ≡ length }
    ensures parts { (events : ℕ) (given : CycleInput) (value : Outcome)
        → ShowsInput events input bytes.now given
        → ShowsOutcome format outcome length bytes.now value
        → IsFrameAt events result bytes.now (cycle_frame given value) }
{
    match outcome {
        OutcomeView::Finished {
            elements,
            elements_at,
            output_at,
        } => {
            let view = FinishedView {
                format,
                elements,
                elements_at,
                output_at,
            };
            finished_frame(input, view, length, bytes)
        }
        OutcomeView::Refused { at } => refused_frame(input, at, length, bytes),
    }
}

fn kind_struct(place: Place, kind: FrameKind, length: usize, bytes: &[u8]) -> DetFrame
    ensures length { result.length ≡ length }
    ensures parts { (frame : Frame) → ShowsFrame place kind length bytes.now frame
        → IsFrameAt (events_of place) result bytes.now frame }
{
    match kind {
        FrameKind::Register => bare_frame(1, length),
        FrameKind::Discover => bare_frame(2, length),
        FrameKind::Init { elements } => init_frame(elements, length),
        FrameKind::Run { input, outcome } => {
            cycle_struct(format_at(place), input, outcome, length, bytes)
        }
        FrameKind::Terminate => bare_frame(5, length),
    }
}

/// The struct of a frame. The view of a header, which a reading at a frame doesn't give, has tag 0.
pub(crate) fn frame_struct(place: Place, span: ItemSpan, bytes: &[u8]) -> DetFrame
    ensures length { result.length ≡ span.len }
    ensures parts { (frame : Frame)
        → ShowsParts place span.kind span.len bytes.now (items.Frame frame)
        → IsFrameAt (events_of place) result bytes.now frame }
{
    match span.kind {
        ItemKind::Header(_) => bare_frame(0, span.len),
        ItemKind::Frame(kind) => kind_struct(place, kind, span.len, bytes),
    }
}
