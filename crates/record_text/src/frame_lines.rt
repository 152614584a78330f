//! The lines of a frame, printed from its view and its bytes.
ghost use Rattle.std.specs.Prelude.{◌≡◌, ◌≤◌, ◌+◌, ◌++◌, ℕ, List, OnOk, length, drop, codes};
ghost use Rattle.std.specs.List.{flat_map};
ghost use Rattle.det_values.specs.Spelling.{an_element};
ghost use Rattle.det_values.specs.declared.frames.Frame.{Frame};
ghost use Rattle.det_values.specs.declared.frames.Outcome.{Outcome};
ghost use Rattle.det_values.specs.declared.frames.RunFrame.{RunFrame};
ghost use Rattle.record_grammar.specs.Read.{Got, many};
ghost use Rattle.record_grammar.specs.Grammar.{element_at};
ghost use Rattle.record_grammar.specs.Places.{format_of};
ghost use Rattle.record_view.specs.Shows.{ShowsInput, ShowsOutcome, ShowsFinished, events_of};
ghost use Rattle.record_view.specs.Shows.{IsFrameSpelling};
ghost use Rattle.record_text.specs.Words.{number_line, numbered_texts};
ghost use Rattle.record_text.specs.Records.{draws_text, drawn_line, time_text, run_line};
ghost use Rattle.record_text.specs.Records.{sample_line, refused_line, output_line};
ghost use Rattle.record_text.specs.Records.{element_line, outcome_lines, run_lines, frame_lines};

use crate::line_buffer::LineBuffer;
use crate::put_text::{put_hex, put_number, put_number_line, put_signed, put_str};
use det_values::{Format, RefusedAt, Sample};
use record_grammar::Place;
use record_view::{
    ElementWalk, FrameKind, FrameView, InputView, OutcomeView, SampleWalk, events_at, format_at,
    view_elements, view_init_elements, view_output, view_refusal, view_samples,
};
use std::alloc::AllocError;

fn prepend_draws(line: &mut LineBuffer, format: Format, draws: u32)
    requires { 11 + length line.old ≤ 160 }
    ensures text { line.new ≡ draws_text format draws ++ line.old }
    ensures short { length line.new ≤ 11 + length line.old }
{
    match format {
        Format::One => {}
        Format::Two => {
            line.prepend_number(draws);
            line.prepend_str(" ");
        }
    }
}

fn put_drawn_line(
    out: &mut Vec<u8>,
    format: Format,
    number: u32,
    bytes: &[u8],
    draws: u32,
) -> Result<(), AllocError>
    requires { length bytes.now ≤ 64 }
    ensures { OnOk result
        (out.new.items ≡ out.old.items ++ drawn_line format number (an_element bytes.now draws)) }
{
    let mut line = LineBuffer::new();
    line.prepend_str("\n");
    prepend_draws(&mut line, format, draws);
    line.prepend_hex(bytes);
    line.prepend_str(" ");
    line.prepend_number(number);
    line.prepend_str("element ");
    out.extend_from_slice(line.as_slice())
}

fn put_drawn_lines(
    out: &mut Vec<u8>,
    format: Format,
    count: u32,
    elements: ElementWalk<'_>,
) -> Result<(), AllocError>
    requires { length elements ≤ count }
    ensures { OnOk result
        (out.new.items ≡ out.old.items ++ numbered_texts (drawn_line format) 0 elements.entry) }
{
    let mut elements = elements;
    'elements: for number in 0..count {
        match elements.next() {
            Some((bytes, draws)) => put_drawn_line(out, format, number, bytes, draws)?,
            None => return Ok(()),
        }
    }
    Ok(())
}

fn put_time(out: &mut Vec<u8>, time: Option<u64>) -> Result<(), AllocError>
    ensures { OnOk result (out.new.items ≡ out.old.items ++ time_text time) }
{
    match time {
        None => put_str(out, "-"),
        Some(time) => put_number(out, time),
    }
}

fn put_run_line(out: &mut Vec<u8>, cycle: u32, time: Option<u64>) -> Result<(), AllocError>
    ensures { OnOk result (out.new.items ≡ out.old.items ++ run_line cycle time) }
{
    put_str(out, "run ")?;
    put_number(out, cycle as u64)?;
    put_str(out, " time ")?;
    put_time(out, time)?;
    put_str(out, "\n")?;
    Ok(())
}

fn put_sample_line(out: &mut Vec<u8>, sample: &Sample) -> Result<(), AllocError>
    ensures { OnOk result (out.new.items ≡ out.old.items ++ sample_line sample.now) }
{
    let Sample { event, value } = *sample;
    put_str(out, "sample ")?;
    put_number(out, event as u64)?;
    put_str(out, " ")?;
    put_signed(out, value)?;
    put_str(out, "\n")?;
    Ok(())
}

fn put_sample_lines(out: &mut Vec<u8>, samples: SampleWalk<'_>) -> Result<(), AllocError>
    ensures { OnOk result (out.new.items ≡ out.old.items ++ flat_map sample_line samples.entry) }
{
    let mut samples = samples;
    'samples: loop {
        match samples.next() {
            Some(sample) => put_sample_line(out, &sample)?,
            None => return Ok(()),
        }
    }
}

fn put_refused_line(out: &mut Vec<u8>, refused: &RefusedAt) -> Result<(), AllocError>
    ensures { OnOk result (out.new.items ≡ out.old.items ++ refused_line refused.now) }
{
    let RefusedAt {
        phase,
        pass,
        element,
        code,
    } = *refused;
    put_str(out, "refused ")?;
    put_str(out, phase.word())?;
    put_str(out, " ")?;
    put_number(out, pass as u64)?;
    put_str(out, " ")?;
    put_number(out, element as u64)?;
    put_str(out, " ")?;
    put_number(out, code as u64)?;
    put_str(out, "\n")?;
    Ok(())
}

fn put_output_line(out: &mut Vec<u8>, output: &[u8]) -> Result<(), AllocError>
    ensures { OnOk result (out.new.items ≡ out.old.items ++ output_line output.now) }
{
    put_str(out, "output ")?;
    put_hex(out, output)?;
    put_str(out, "\n")?;
    Ok(())
}

fn put_finished_lines(
    out: &mut Vec<u8>,
    format: Format,
    count: u32,
    at: usize,
    output_at: usize,
    bytes: &[u8],
) -> Result<(), AllocError>
    requires { (len : ℕ) × (outcome : Outcome)
        × ShowsFinished format count at output_at len bytes.now outcome }
    ensures { OnOk result ((len : ℕ) (outcome : Outcome)
        → ShowsFinished format count at output_at len bytes.now outcome
        → out.new.items ≡ out.old.items ++ outcome_lines format outcome) }
{
    put_number_line(out, "finished", count as u64)?;
    put_drawn_lines(out, format, count, view_elements(format, count, at, bytes))?;
    put_output_line(out, view_output(output_at, bytes))
}

fn put_outcome_lines(
    out: &mut Vec<u8>,
    format: Format,
    view: OutcomeView,
    bytes: &[u8],
) -> Result<(), AllocError>
    requires { (len : ℕ) × (outcome : Outcome) × ShowsOutcome format view len bytes.now outcome }
    ensures { OnOk result ((len : ℕ) (outcome : Outcome)
        → ShowsOutcome format view len bytes.now outcome
        → out.new.items ≡ out.old.items ++ outcome_lines format outcome) }
{
    match view {
        OutcomeView::Finished {
            elements,
            elements_at,
            output_at,
        } => put_finished_lines(out, format, elements, elements_at, output_at, bytes),
        OutcomeView::Refused { at } => put_refused_line(out, &view_refusal(at, bytes)),
    }
}

fn put_run_lines(
    out: &mut Vec<u8>,
    cycle: u32,
    place: Place,
    input: InputView,
    outcome: OutcomeView,
    bytes: &[u8],
) -> Result<(), AllocError>
    requires { (len : ℕ) × (run : RunFrame)
        × ShowsInput (events_of place) input bytes.now run.input
        × ShowsOutcome (format_of place) outcome len bytes.now run.outcome }
    ensures { OnOk result ((len : ℕ) (run : RunFrame)
        → ShowsInput (events_of place) input bytes.now run.input
        → ShowsOutcome (format_of place) outcome len bytes.now run.outcome
        → out.new.items ≡ out.old.items ++ run_lines (format_of place) cycle run) }
{
    put_run_line(out, cycle, input.time)?;
    put_sample_lines(out, view_samples(events_at(place), input, bytes))?;
    put_outcome_lines(out, format_at(place), outcome, bytes)
}

fn put_init_lines(out: &mut Vec<u8>, count: u32, bytes: &[u8]) -> Result<(), AllocError>
    requires { (elements : List (List ℕ)) × (rest : List ℕ)
        × (many element_at count (drop 5 bytes.now) ≡ Got (elements, rest))
        × (5 ≤ length bytes.now) }
    ensures { OnOk result ((elements : List (List ℕ)) (rest : List ℕ)
        → many element_at count (drop 5 bytes.now) ≡ Got (elements, rest)
        → out.new.items ≡ out.old.items ++ (number_line (codes "init") (length elements)
        ++ numbered_texts element_line 0 elements)) }
{
    put_number_line(out, "init", count as u64)?;
    put_drawn_lines(out, Format::One, count, view_init_elements(count, bytes))
}

fn put_frame(out: &mut Vec<u8>, cycle: u32, view: FrameView, bytes: &[u8]) -> Result<(), AllocError>
    requires { (frame : Frame) × IsFrameSpelling view frame bytes.now }
    ensures { OnOk result ((frame : Frame) → IsFrameSpelling view frame bytes.now
        → out.new.items ≡ out.old.items ++ frame_lines (format_of view.place) cycle frame) }
{
    match view.kind {
        FrameKind::Register => put_str(out, "register\n"),
        FrameKind::Discover => put_str(out, "discover\n"),
        FrameKind::Init { elements } => put_init_lines(out, elements, bytes),
        FrameKind::Run { input, outcome } => {
            put_run_lines(out, cycle, view.place, input, outcome, bytes)
        }
        FrameKind::Terminate => put_str(out, "terminate\n"),
    }
}

/// Appends the lines of a frame. If it is a Run frame, it is that of cycle `cycle`, counted from 1.
/// After `AllocError` a part of the lines may be there.
pub fn put_frame_lines(
    out: &mut Vec<u8>,
    cycle: u32,
    view: FrameView,
    bytes: &[u8],
) -> Result<(), AllocError>
    requires { (frame : Frame) × IsFrameSpelling view frame bytes.now }
    ensures { OnOk result ((frame : Frame) → IsFrameSpelling view frame bytes.now
        → out.new.items ≡ out.old.items ++ frame_lines (format_of view.place) cycle frame) }
{
    put_frame(out, cycle, view, bytes)?;
    Ok(())
}
