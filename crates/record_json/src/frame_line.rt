//! The line of a frame, printed from its view and its bytes.
ghost use Rattle.std.specs.Prelude.{◌≡◌, ◌≤◌, ◌++◌, ℕ, List, OnOk, length, drop, codes};
ghost use Rattle.std.specs.List.{flat_map};
ghost use Rattle.det_values.specs.Spelling.{an_element};
ghost use Rattle.det_values.specs.declared.frames.Frame.{Frame};
ghost use Rattle.det_values.specs.declared.frames.Outcome.{Outcome};
ghost use Rattle.det_values.specs.declared.frames.RunFrame.{RunFrame};
ghost use Rattle.record_grammar.specs.Read.{Got, many};
ghost use Rattle.record_grammar.specs.Grammar.{element_at};
ghost use Rattle.record_grammar.specs.Places.{format_of};
ghost use Rattle.record_view.specs.Shows.{ShowsInput, ShowsOutcome, ShowsFinished, events_of};
ghost use Rattle.record_view.specs.Shows.{IsFrameSpelling};
ghost use Rattle.record_json.specs.Texts.{listed};
ghost use Rattle.record_json.specs.Records.{draws_text, drawn_text, time_text, sample_text};
ghost use Rattle.record_json.specs.Records.{finished_text, refused_text, outcome_text};
ghost use Rattle.record_json.specs.Records.{input_text, init_line, run_line, frame_line};

use crate::element_layout::ElementLayout;
use crate::element_text::put_fields;
use crate::put_json::{put_bytes, put_exact};
use det_values::{Format, RefusedAt, Sample};
use record_grammar::Place;
use record_text::{put_number, put_signed, put_str};
use record_view::{
    ElementWalk, FrameKind, FrameView, InputView, OutcomeView, SampleWalk, events_at, format_at,
    view_elements, view_init_elements, view_output, view_refusal, view_samples,
};
use std::alloc::AllocError;

fn put_draws(out: &mut Vec<u8>, format: Format, draws: u32) -> Result<(), AllocError>
    ensures { OnOk result (out.new.items ≡ out.old.items ++ draws_text format draws) }
{
    match format {
        Format::One => Ok(()),
        Format::Two => {
            put_str(out, ",\"draws\":")?;
            put_number(out, draws as u64)
        }
    }
}

/// Appends an element. Those of Init have no draws, as in format 1.
fn put_element(
    out: &mut Vec<u8>,
    format: Format,
    layout: ElementLayout,
    bytes: &[u8],
    draws: u32,
) -> Result<(), AllocError>
    ensures { OnOk result (out.new.items
        ≡ out.old.items ++ drawn_text format layout (an_element bytes.now draws)) }
{
    put_str(out, "{\"bytes\":")?;
    put_bytes(out, bytes)?;
    put_draws(out, format, draws)?;
    put_fields(out, layout, bytes)?;
    put_str(out, "}")?;
    Ok(())
}

fn put_more_elements(
    out: &mut Vec<u8>,
    format: Format,
    layout: ElementLayout,
    elements: ElementWalk<'_>,
) -> Result<(), AllocError>
    ensures { OnOk result (out.new.items ≡ out.old.items
        ++ flat_map (λ e. codes "," ++ drawn_text format layout e) elements.entry) }
{
    let mut elements = elements;
    'elements: loop {
        match elements.next() {
            Some((bytes, draws)) => {
                put_str(out, ",")?;
                put_element(out, format, layout, bytes, draws)?;
            }
            None => return Ok(()),
        }
    }
}

fn put_elements(
    out: &mut Vec<u8>,
    format: Format,
    layout: ElementLayout,
    elements: ElementWalk<'_>,
) -> Result<(), AllocError>
    ensures { OnOk result
        (out.new.items ≡ out.old.items ++ listed (drawn_text format layout) elements.entry) }
{
    let mut elements = elements;
    let Some((bytes, draws)) = elements.next() else {
        return Ok(());
    };
    put_element(out, format, layout, bytes, draws)?;
    put_more_elements(out, format, layout, elements)
}

fn put_time(out: &mut Vec<u8>, time: Option<u64>) -> Result<(), AllocError>
    ensures { OnOk result (out.new.items ≡ out.old.items ++ time_text time) }
{
    match time {
        None => put_str(out, "null"),
        Some(time) => put_exact(out, time),
    }
}

fn put_sample(out: &mut Vec<u8>, sample: &Sample) -> Result<(), AllocError>
    ensures { OnOk result (out.new.items ≡ out.old.items ++ sample_text sample.now) }
{
    let Sample { event, value } = *sample;
    put_str(out, "{\"event\":")?;
    put_number(out, event as u64)?;
    put_str(out, ",\"value\":")?;
    put_signed(out, value)?;
    put_str(out, "}")?;
    Ok(())
}

fn put_more_samples(out: &mut Vec<u8>, samples: SampleWalk<'_>) -> Result<(), AllocError>
    ensures { OnOk result (out.new.items
        ≡ out.old.items ++ flat_map (λ s. codes "," ++ sample_text s) samples.entry) }
{
    let mut samples = samples;
    'samples: loop {
        match samples.next() {
            Some(sample) => {
                put_str(out, ",")?;
                put_sample(out, &sample)?;
            }
            None => return Ok(()),
        }
    }
}

fn put_samples(out: &mut Vec<u8>, samples: SampleWalk<'_>) -> Result<(), AllocError>
    ensures { OnOk result (out.new.items ≡ out.old.items ++ listed sample_text samples.entry) }
{
    let mut samples = samples;
    let Some(sample) = samples.next() else {
        return Ok(());
    };
    put_sample(out, &sample)?;
    put_more_samples(out, samples)
}

fn put_input(
    out: &mut Vec<u8>,
    cycle: u32,
    time: Option<u64>,
    samples: SampleWalk<'_>,
) -> Result<(), AllocError>
    ensures { OnOk result (out.new.items ≡ out.old.items ++ input_text cycle time samples.entry) }
{
    put_str(out, "{\"run\":{\"cycle\":")?;
    put_number(out, cycle as u64)?;
    put_str(out, ",\"time\":")?;
    put_time(out, time)?;
    put_str(out, ",\"samples\":[")?;
    put_samples(out, samples)?;
    put_str(out, "]")?;
    Ok(())
}

fn put_refused(out: &mut Vec<u8>, refused: &RefusedAt) -> Result<(), AllocError>
    ensures { OnOk result (out.new.items
        ≡ out.old.items ++ refused_text refused.now) }
{
    let RefusedAt {
        phase,
        pass,
        element,
        code,
    } = *refused;
    put_str(out, ",\"refused\":{\"phase\":\"")?;
    put_str(out, phase.word())?;
    put_str(out, "\",\"pass\":")?;
    put_number(out, pass as u64)?;
    put_str(out, ",\"element\":")?;
    put_number(out, element as u64)?;
    put_str(out, ",\"code\":")?;
    put_number(out, code as u64)?;
    put_str(out, "}}}\n")?;
    Ok(())
}

fn put_finished(
    out: &mut Vec<u8>,
    format: Format,
    layout: ElementLayout,
    elements: ElementWalk<'_>,
    output: &[u8],
) -> Result<(), AllocError>
    ensures { OnOk result (out.new.items
        ≡ out.old.items ++ finished_text format layout elements.entry output.now) }
{
    put_str(out, ",\"finished\":{\"elements\":[")?;
    put_elements(out, format, layout, elements)?;
    put_str(out, "],\"output\":")?;
    put_bytes(out, output)?;
    put_str(out, "}}}\n")?;
    Ok(())
}

fn put_outcome(
    out: &mut Vec<u8>,
    format: Format,
    layout: ElementLayout,
    view: OutcomeView,
    bytes: &[u8],
) -> Result<(), AllocError>
    requires { (len : ℕ) × (outcome : Outcome) × ShowsOutcome format view len bytes.now outcome }
    ensures { OnOk result ((len : ℕ) (outcome : Outcome)
        → ShowsOutcome format view len bytes.now outcome
        → out.new.items ≡ out.old.items ++ outcome_text format layout outcome) }
{
    match view {
        OutcomeView::Finished {
            elements,
            elements_at,
            output_at,
        } => put_finished(
            out,
            format,
            layout,
            view_elements(format, elements, elements_at, bytes),
            view_output(output_at, bytes),
        ),
        OutcomeView::Refused { at } => put_refused(out, &view_refusal(at, bytes)),
    }
}

fn put_init(
    out: &mut Vec<u8>,
    layout: ElementLayout,
    count: u32,
    bytes: &[u8],
) -> Result<(), AllocError>
    requires { (elements : List (List ℕ)) × (rest : List ℕ)
        × (many element_at count (drop 5 bytes.now) ≡ Got (elements, rest))
        × (5 ≤ length bytes.now) }
    ensures { OnOk result ((elements : List (List ℕ)) (rest : List ℕ)
        → many element_at count (drop 5 bytes.now) ≡ Got (elements, rest)
        → out.new.items ≡ out.old.items ++ init_line layout elements) }
{
    put_str(out, "{\"init\":[")?;
    put_elements(out, Format::One, layout, view_init_elements(count, bytes))?;
    put_str(out, "]}\n")
}

fn put_run(
    out: &mut Vec<u8>,
    layout: ElementLayout,
    cycle: u32,
    place: Place,
    views: (InputView, OutcomeView),
    bytes: &[u8],
) -> Result<(), AllocError>
    requires { (len : ℕ) × (run : RunFrame)
        × ShowsInput (events_of place) views.0 bytes.now run.input
        × ShowsOutcome (format_of place) views.1 len bytes.now run.outcome }
    ensures { OnOk result ((len : ℕ) (run : RunFrame)
        → ShowsInput (events_of place) views.0 bytes.now run.input
        → ShowsOutcome (format_of place) views.1 len bytes.now run.outcome
        → out.new.items ≡ out.old.items ++ run_line (format_of place) layout cycle run) }
{
    let (input, outcome) = views;
    let samples = view_samples(events_at(place), input, bytes);
    put_input(out, cycle, input.time, samples)?;
    put_outcome(out, format_at(place), layout, outcome, bytes)
}

/// Appends the line of a frame. If it is a Run frame, it is that of cycle `cycle`, counted from 1.
/// After `AllocError` a part of the line may be there.
pub fn put_json_frame(
    out: &mut Vec<u8>,
    layout: ElementLayout,
    cycle: u32,
    view: FrameView,
    bytes: &[u8],
) -> Result<(), AllocError>
    requires { (frame : Frame) × IsFrameSpelling view frame bytes.now }
    ensures { OnOk result ((frame : Frame) → IsFrameSpelling view frame bytes.now
        → out.new.items ≡ out.old.items ++ frame_line (format_of view.place) layout cycle frame) }
{
    match view.kind {
        FrameKind::Register => put_str(out, "{\"register\":true}\n"),
        FrameKind::Discover => put_str(out, "{\"discover\":true}\n"),
        FrameKind::Init { elements } => put_init(out, layout, elements, bytes),
        FrameKind::Run { input, outcome } => {
            put_run(out, layout, cycle, view.place, (input, outcome), bytes)
        }
        FrameKind::Terminate => put_str(out, "{\"terminate\":true}\n"),
    }
}
