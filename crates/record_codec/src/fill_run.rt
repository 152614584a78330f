//! Run frames and their parts, decoded from views.
ghost use Rattle.std.specs.Prelude.{◌≡◌, ℕ, ◌≤◌, length, IfOk, OnOk};
ghost use Rattle.det_values.specs.declared.frames.CycleInput.{CycleInput as Input};
ghost use Rattle.det_values.specs.declared.frames.Outcome.{Outcome as OutcomeValue};
ghost use Rattle.det_values.specs.declared.frames.Outcome.TheVariants as outcomes;
ghost use Rattle.det_values.specs.declared.frames.RunFrame.{RunFrame as RunValue};
ghost use Rattle.record_grammar.specs.Places.{format_of};
ghost use Rattle.record_view.specs.Shows.{ShowsInput, ShowsOutcome, ShowsFinished, events_of};
ghost use Rattle.record_view.specs.Parts.{OutputOf};
ghost use Rattle.record_codec.specs.Parts.{ShowsRun, FewElements, IsFinishedView};
ghost use Rattle.record_codec.specs.Parts.{IsShownOutcome};

use crate::elements::fill_elements;
use det_values::{Bytes, CycleInput, DrawnElements, Format, Limited, Outcome, RunFrame, Samples};
use record_grammar::Place;
use record_view::{
    InputView, OutcomeView, SampleWalk, events_at, format_at, view_output, view_refusal,
    view_samples,
};
use std::alloc::{AllocError, Global};

/// A run without samples, elements and output. It takes no memory.
pub fn empty_run(alloc: Global) -> RunFrame {
    RunFrame {
        input: CycleInput {
            time: None,
            samples: Limited::new(alloc),
        },
        outcome: empty_outcome(alloc),
    }
}

/// A finished outcome without elements and output. It takes no memory.
pub fn empty_outcome(alloc: Global) -> Outcome {
    Outcome::Finished {
        elements: DrawnElements::new(alloc),
        output: Limited::new(alloc),
    }
}

/// The run of a Run frame, as an owned value.
pub fn decode_run(
    alloc: Global,
    place: Place,
    input: InputView,
    outcome: OutcomeView,
    bytes: &[u8],
) -> Result<RunFrame, AllocError>
    requires shows { (len : ℕ) × (run : RunValue)
        × ShowsRun place input outcome len bytes.now run }
    requires few { FewElements outcome }
    ensures { IfOk result (λ made. (len : ℕ) (run : RunValue)
        → ShowsRun place input outcome len bytes.now run → made ≡ run) }
{
    let mut run = empty_run(alloc);
    fill_input(&mut run.input, place, input, bytes)?;
    fill_outcome(alloc, &mut run.outcome, place, outcome, bytes)?;
    Ok(run)
}

/// Replaces `input` by that of a view, and reuses its memory.
pub fn fill_input(
    input: &mut CycleInput,
    place: Place,
    view: InputView,
    bytes: &[u8],
) -> Result<(), AllocError>
    requires { (shown : Input) × ShowsInput (events_of place) view bytes.now shown }
    ensures { OnOk result ((shown : Input) → ShowsInput (events_of place) view bytes.now shown
        → input.new ≡ shown) }
{
    input.time = view.time;
    fill_samples(
        &mut input.samples,
        view_samples(events_at(place), view, bytes),
    )
}

/// Replaces `samples` by those of a walk, one by one.
fn fill_samples(samples: &mut Samples, walk: SampleWalk<'_>) -> Result<(), AllocError>
    requires { length walk ≤ 4096 }
    ensures { OnOk result (samples.new ≡ walk.entry) }
{
    let mut walk = walk;
    samples.clear();
    'samples: loop {
        match walk.next() {
            Some(sample) => samples.push(sample)?,
            None => return Ok(()),
        }
    }
}

/// Replaces `outcome` by that of a view. Memory is reused if both are of a finished cycle.
pub fn fill_outcome(
    alloc: Global,
    outcome: &mut Outcome,
    place: Place,
    view: OutcomeView,
    bytes: &[u8],
) -> Result<(), AllocError>
    requires shows { (len : ℕ) × (shown : OutcomeValue)
        × ShowsOutcome (format_of place) view len bytes.now shown }
    requires few { FewElements view }
    ensures { OnOk result ((len : ℕ) (shown : OutcomeValue)
        → ShowsOutcome (format_of place) view len bytes.now shown → outcome.new ≡ shown) }
{
    match view {
        OutcomeView::Finished {
            elements,
            elements_at,
            output_at,
        } => {
            let view = FinishedView {
                format: format_at(place),
                elements,
                elements_at,
                output_at,
            };
            fill_finished(alloc, outcome, view, bytes)
        }
        OutcomeView::Refused { at } => {
            *outcome = Outcome::Refused(view_refusal(at, bytes));
            Ok(())
        }
    }
}

/// The parts of a finished cycle, and the format of its elements.
#[derive(Clone, Copy, Drop)]
pub(crate) struct FinishedView {
    pub(crate) format: Format,
    pub(crate) elements: u32,
    pub(crate) elements_at: usize,
    pub(crate) output_at: usize,
}

/// Replaces `outcome` by that of a finished cycle.
fn fill_finished(
    alloc: Global,
    outcome: &mut Outcome,
    view: FinishedView,
    bytes: &[u8],
) -> Result<(), AllocError>
    requires { IsFinishedView view bytes.now }
    ensures { OnOk result (IsShownOutcome view bytes.now outcome.new) }
{
    match outcome {
        Outcome::Finished { elements, output } => fill_finished_parts(
            elements, output, view, bytes,
        ),
        Outcome::Refused(_) => {
            *outcome = decode_finished(alloc, view, bytes)?;
            Ok(())
        }
    }
}

/// The outcome of a finished cycle, as an owned value.
fn decode_finished(alloc: Global, view: FinishedView, bytes: &[u8]) -> Result<Outcome, AllocError>
    requires { IsFinishedView view bytes.now }
    ensures { IfOk result (IsShownOutcome view bytes.now) }
{
    let mut elements = DrawnElements::new(alloc);
    let mut output = Limited::new(alloc);
    fill_finished_parts(&mut elements, &mut output, view, bytes)?;
    Ok(Outcome::Finished { elements, output })
}

/// Replaces the elements and the output by those of a finished cycle.
fn fill_finished_parts(
    elements: &mut DrawnElements,
    output: &mut Bytes,
    view: FinishedView,
    bytes: &[u8],
) -> Result<(), AllocError>
    requires { IsFinishedView view bytes.now }
    ensures { OnOk result (IsShownOutcome view bytes.now
        (outcomes.Finished elements.new output.new)) }
{
    fill_elements(elements, view, bytes)?;
    fill_output(output, view.output_at, bytes)
}

/// Replaces `output` by that of a finished cycle.
fn fill_output(output: &mut Bytes, output_at: usize, bytes: &[u8]) -> Result<(), AllocError>
    requires { (format : Format) × (count at len : ℕ) × (outcome : OutcomeValue)
        × ShowsFinished format count at output_at len bytes.now outcome }
    ensures { OnOk result ((format : Format) (count at len : ℕ) (outcome : OutcomeValue)
        → ShowsFinished format count at output_at len bytes.now outcome
        → OutputOf output.new outcome) }
{
    output.clear();
    output.extend_from_slice(view_output(output_at, bytes))
}
