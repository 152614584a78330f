//! Frames and their parts, appended to a record.
#![tactic(auto, using(crate::proofs::Appending::grows_then))]

ghost use Rattle.std.specs.Prelude.{◌≡◌, ◌<◌, ◌≤◌, ◌++◌, ◌∷◌, length, OnOk};
ghost use Rattle.std.specs.List.{flat_map, All};
ghost use Rattle.record_grammar.specs.Spelling.{spelled_element, IsElement, spelled_drawn, MayDraw};
ghost use Rattle.record_grammar.specs.Spelling.{IsDrawn, spelled_time, IsTime, spelled_sample};
ghost use Rattle.record_grammar.specs.Spelling.{IsSample, spelled_input, IsInput, phase_number};
ghost use Rattle.record_grammar.specs.Spelling.{spelled_refusal, IsRefusal, AreBytes};
ghost use Rattle.record_grammar.specs.Spelling.{spelled_finished, spelled_outcome, MayDrawAll};
ghost use Rattle.record_grammar.specs.Spelling.{IsOutcome, spelled_frame, CanSpell, IsFrame};
ghost use Rattle.det_values.specs.Blocks.{joined};
ghost use Rattle.det_values.specs.Spelling.{Grows, spelled_u32, spelled_all};
ghost use Rattle.det_values.specs.Spelling.{IsDrawn as IsFlatDrawn};
ghost use Rattle.det_values.specs.declared.format.Format.TheVariants.{One};

use crate::put_field::{put_element, put_i64, put_u8, put_u64};
use det_values::put::{put_slice, put_u16, put_u32};
use det_values::{
    Bytes64, CycleInput, DrawnBlock, DrawnElements, Format, Frame, Outcome, Phase, RefusedAt,
    RunFrame, Sample,
};
use std::alloc::AllocError;

fn put_elements(out: &mut Vec<u8>, elements: &[Bytes64]) -> Result<(), AllocError>
    ensures ok { OnOk result (out.new.items
        ≡ out.old.items ++ flat_map spelled_element elements.now) }
    ensures grows { Grows out.old.items out.new.items }
    ensures fields { OnOk result (All IsElement elements.now) }
{
    for element in elements {
        put_element(out, element)?;
    }
    Ok(())
}

fn put_undrawn(out: &mut Vec<u8>, elements: &DrawnElements) -> Result<(), AllocError>
    requires { All (λ e. MayDraw One e.draws) elements.now }
    ensures ok { OnOk result (out.new.items ≡ out.old.items ++ flat_map
        (spelled_drawn One) elements.now) }
    ensures grows { Grows out.old.items out.new.items }
    ensures fields { OnOk result (All IsFlatDrawn elements.now) }
{
    let mut walk = elements.walk();
    for _ in 0..elements.len() {
        match walk.next() {
            Some((bytes, _draws)) => {
                put_u16(out, bytes.len() as u16)?;
                put_slice(out, bytes)?;
            }
            None => return Ok(()),
        }
    }
    Ok(())
}

/// Blocks of elements, each appended by one copy.
fn put_blocks(out: &mut Vec<u8>, blocks: &[DrawnBlock]) -> Result<(), AllocError>
    ensures ok { OnOk result (out.new.items ≡ out.old.items ++ spelled_all (joined blocks.now)) }
    ensures grows { Grows out.old.items out.new.items }
    ensures fields { OnOk result (All IsFlatDrawn (joined blocks.now)) }
{
    for block in blocks {
        put_slice(out, block.spelled())?;
    }
    Ok(())
}

fn put_all_drawn(
    out: &mut Vec<u8>,
    format: Format,
    elements: &DrawnElements,
) -> Result<(), AllocError>
    requires { All (λ e. MayDraw format e.draws) elements.now }
    ensures ok { OnOk result (out.new.items ≡ out.old.items ++ flat_map
        (spelled_drawn format) elements.now) }
    ensures grows { Grows out.old.items out.new.items }
    ensures fields { OnOk result (All (IsDrawn format) elements.now) }
{
    match format {
        Format::One => put_undrawn(out, elements),
        Format::Two => put_blocks(out, elements.blocks()),
    }
}

fn put_time(out: &mut Vec<u8>, time: Option<u64>) -> Result<(), AllocError>
    ensures ok { OnOk result (out.new.items ≡ out.old.items ++ spelled_time time) }
    ensures grows { Grows out.old.items out.new.items }
    ensures fields { IsTime time }
{
    match time {
        None => put_u8(out, 0)?,
        Some(time) => {
            put_u8(out, 1)?;
            put_u64(out, time)?;
        }
    }
    Ok(())
}

fn put_sample(out: &mut Vec<u8>, events: u16, sample: &Sample) -> Result<(), AllocError>
    requires { sample.now.event < events }
    ensures ok { OnOk result (out.new.items ≡ out.old.items ++ spelled_sample sample.now) }
    ensures grows { Grows out.old.items out.new.items }
    ensures fields { IsSample events sample.now }
{
    let Sample { event, value } = *sample;
    put_u16(out, event)?;
    put_i64(out, &value)?;
    Ok(())
}

fn put_samples(out: &mut Vec<u8>, events: u16, samples: &[Sample]) -> Result<(), AllocError>
    requires { All (λ s. s.event < events) samples.now }
    ensures ok { OnOk result (out.new.items
        ≡ out.old.items ++ flat_map spelled_sample samples.now) }
    ensures grows { Grows out.old.items out.new.items }
    ensures fields { OnOk result (All (IsSample events) samples.now) }
{
    for sample in samples {
        put_sample(out, events, sample)?;
    }
    Ok(())
}

fn put_input(out: &mut Vec<u8>, events: u16, input: &CycleInput) -> Result<(), AllocError>
    requires { All (λ s. s.event < events) input.now.samples }
    ensures ok { OnOk result (out.new.items ≡ out.old.items ++ spelled_input input.now) }
    ensures grows { Grows out.old.items out.new.items }
    ensures fields { OnOk result (IsInput events input.now) }
{
    put_time(out, input.time)?;
    let samples = input.samples.as_slice();
    put_u32(out, samples.len() as u32)?;
    put_samples(out, events, samples)?;
    Ok(())
}

fn phase_byte(phase: Phase) -> u8
    ensures { result ≡ phase_number phase }
{
    match phase {
        Phase::Prepare => 0,
        Phase::Pool => 1,
        Phase::Conclude => 2,
    }
}

fn put_refusal(out: &mut Vec<u8>, refused: &RefusedAt) -> Result<(), AllocError>
    ensures ok { OnOk result (out.new.items ≡ out.old.items ++ spelled_refusal refused.now) }
    ensures grows { Grows out.old.items out.new.items }
    ensures fields { IsRefusal refused.now }
{
    let RefusedAt {
        phase,
        pass,
        element,
        code,
    } = *refused;
    put_u8(out, phase_byte(phase))?;
    put_u8(out, pass)?;
    put_u32(out, element)?;
    put_u32(out, code)?;
    Ok(())
}

/// What comes after the elements of a finished Run frame: the output's length and the output.
pub fn put_output(out: &mut Vec<u8>, output: &[u8]) -> Result<(), AllocError>
    requires { length output.now ≤ 1048576 }
    ensures ok { OnOk result (out.new.items
        ≡ out.old.items ++ (spelled_u32 (length output.now) ++ output.now)) }
    ensures grows { Grows out.old.items out.new.items }
    ensures fields { OnOk result (AreBytes output.now) }
{
    put_u32(out, output.len() as u32)?;
    put_slice(out, output)?;
    Ok(())
}

fn put_finished(
    out: &mut Vec<u8>,
    format: Format,
    elements: &DrawnElements,
    output: &[u8],
) -> Result<(), AllocError>
    requires draws { All (λ e. MayDraw format e.draws) elements.now }
    requires short { length output.now ≤ 1048576 }
    ensures few { length elements.now ≤ 65536 }
    ensures ok { OnOk result (out.new.items
        ≡ out.old.items ++ spelled_finished format elements.now output.now) }
    ensures grows { Grows out.old.items out.new.items }
    ensures fields { OnOk result (All (IsDrawn format) elements.now × AreBytes output.now) }
{
    let count = elements.len();
    put_u32(out, count as u32)?;
    put_all_drawn(out, format, elements)?;
    put_output(out, output)
}

fn put_outcome(out: &mut Vec<u8>, format: Format, outcome: &Outcome) -> Result<(), AllocError>
    requires { MayDrawAll format outcome.now }
    ensures ok { OnOk result (out.new.items ≡ out.old.items ++ spelled_outcome format outcome.now) }
    ensures grows { Grows out.old.items out.new.items }
    ensures fields { OnOk result (IsOutcome format outcome.now) }
{
    match outcome {
        Outcome::Finished { elements, output } => {
            put_u8(out, 0)?;
            put_finished(out, format, elements, output.as_slice())?;
        }
        Outcome::Refused(refused) => {
            put_u8(out, 1)?;
            put_refusal(out, refused)?;
        }
    }
    Ok(())
}

/// What comes before the elements of an Init frame.
pub fn put_init_head(out: &mut Vec<u8>, count: u32) -> Result<(), AllocError>
    ensures ok { OnOk result (out.new.items ≡ out.old.items ++ 3 ∷ spelled_u32 count) }
    ensures grows { Grows out.old.items out.new.items }
{
    put_u8(out, 3)?;
    put_u32(out, count)
}

/// What comes before the elements of a finished Run frame with `count` elements.
pub fn put_run_head(
    out: &mut Vec<u8>,
    events: u16,
    input: &CycleInput,
    count: u32,
) -> Result<(), AllocError>
    requires { All (λ s. s.event < events) input.now.samples }
    ensures { OnOk result (out.new.items ≡ out.old.items
        ++ 4 ∷ (spelled_input input.now ++ 0 ∷ spelled_u32 count)) }
{
    put_run_input(out, events, input)?;
    put_u8(out, 0)?;
    put_u32(out, count)
}

/// What comes before the outcome in a Run frame: the frame's kind and its input.
fn put_run_input(out: &mut Vec<u8>, events: u16, input: &CycleInput) -> Result<(), AllocError>
    requires { All (λ s. s.event < events) input.now.samples }
    ensures ok { OnOk result (out.new.items ≡ out.old.items ++ 4 ∷ spelled_input input.now) }
    ensures grows { Grows out.old.items out.new.items }
    ensures fields { OnOk result (IsInput events input.now) }
{
    put_u8(out, 4)?;
    put_input(out, events, input)?;
    Ok(())
}

/// The spelling of the frame of a run. On an error a part of it may be there.
#[tactic(auto, using(crate::proofs::Appending::grows_then), unfolding(record_grammar::specs::Spelling::spelled_frame, record_grammar::specs::Spelling::IsFrame))]
pub fn put_run(
    out: &mut Vec<u8>,
    format: Format,
    events: u16,
    run: &RunFrame,
) -> Result<(), AllocError>
    requires { CanSpell format events (Frame.Run run.now) }
    ensures ok { OnOk result (out.new.items
        ≡ out.old.items ++ spelled_frame format (Frame.Run run.now)) }
    ensures grows { Grows out.old.items out.new.items }
    ensures fields { OnOk result (IsFrame format events (Frame.Run run.now)) }
{
    put_run_input(out, events, &run.input)?;
    put_outcome(out, format, &run.outcome)?;
    Ok(())
}

/// The spelling of a frame. On an error a part of it may be there.
#[tactic(auto, using(crate::proofs::Appending::grows_then), unfolding(record_grammar::specs::Spelling::spelled_frame, record_grammar::specs::Spelling::IsFrame))]
pub fn put_frame(
    out: &mut Vec<u8>,
    format: Format,
    events: u16,
    frame: &Frame,
) -> Result<(), AllocError>
    requires { CanSpell format events frame.now }
    ensures ok { OnOk result (out.new.items ≡ out.old.items ++ spelled_frame format frame.now) }
    ensures grows { Grows out.old.items out.new.items }
    ensures fields { OnOk result (IsFrame format events frame.now) }
{
    match frame {
        Frame::Register => put_u8(out, 1)?,
        Frame::Discover => put_u8(out, 2)?,
        Frame::Init(elements) => {
            let elements = elements.as_slice();
            put_init_head(out, elements.len() as u32)?;
            put_elements(out, elements)?;
        }
        Frame::Run(run) => put_run(out, format, events, run)?,
        Frame::Terminate => put_u8(out, 5)?,
    }
    Ok(())
}
