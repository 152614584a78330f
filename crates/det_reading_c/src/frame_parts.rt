//! The exports that read a part of a frame from the frame's bytes, by its struct. C may pass any
//! struct and any bytes.
ghost use Rattle.std.specs.Prelude.{◌≡◌, ◌≤◌, ℕ, List, length, IfOk};
ghost use Rattle.std.specs.Bool.{OnFalse};
ghost use Rattle.det_values.specs.declared.frames.Frame.{Frame};
ghost use Rattle.record_grammar.specs.Read.{Got, raw_at};
ghost use Rattle.record_grammar.specs.Numbers.{number};
ghost use Rattle.record_grammar.specs.Grammar.{element_at, drawn_at};
ghost use Rattle.record_view.specs.Gives.{Gives};
ghost use Rattle.c_types.specs.CValues.{drawn_of};
ghost use Rattle.det_reading_c.specs.Frames.{IsFrameAt, input_in, element_format};
ghost use Rattle.det_reading_c.specs.Parts.{IsFirstSample, IsSampleIn, IsFirst};
ghost use Rattle.det_reading_c.specs.Parts.{IsElementAnswer, element_call};

use crate::number::{rest_from, u16_from, u64_from};
use c_types::{DetElement, DetFrame, DetSample};
use det_values::Format;
use record_view::{Stop, u16_at};

const SAMPLE_BYTES: usize = 10;

/// The sample with which these bytes begin, whatever its event and its value.
fn first_sample(bytes: &[u8]) -> Option<DetSample>
    ensures { IsFirstSample result bytes.now }
{
    if bytes.len() < SAMPLE_BYTES {
        return None;
    }
    let event = u16_from(bytes, 0);
    let value = u64_from(bytes, 2);
    Some(DetSample {
        value: value.cast_signed(),
        event,
    })
}

/// Reads the sample of this number, counted from 0. Returns false if the frame has no such sample.
#[unsafe(no_mangle)]
pub extern "C" fn det_frame_sample(
    frame: &DetFrame,
    bytes: &[u8],
    number: u32,
    sample: &mut DetSample,
) -> bool
    ensures sample { (events : ℕ) (value : Frame) → IsFrameAt events frame.now bytes.now value
        → IsSampleIn result number (input_in value).samples sample.new }
    ensures kept { OnFalse result (sample.new ≡ sample.old) }
{
    if number >= frame.sample_count {
        return false;
    }
    let samples = rest_from(bytes, frame.samples);
    match first_sample(rest_from(samples, SAMPLE_BYTES * number as usize)) {
        Some(first) => {
            *sample = first;
            true
        }
        None => false,
    }
}

/// The first `len` bytes, and the rest.
#[tactic(auto, unfolding(record_grammar::specs::Read::raw_at))]
fn raw(len: usize, bytes: &[u8]) -> Result<(&[u8], &[u8]), Stop>
    ensures gives { Gives (λ x. (x.0.now, x.1.now)) result (raw_at len bytes.now) }
    ensures len { IfOk result (λ x. length x.0.now ≡ len) }
{
    if bytes.len() < len {
        return Err(Stop::More);
    }
    Ok(bytes.split_at(len))
}

/// The bytes of the first element, and the rest.
#[tactic(auto, unfolding(record_grammar::specs::Grammar::string_at))]
pub(crate) fn element_bytes(bytes: &[u8]) -> Result<(&[u8], &[u8]), Stop>
    ensures gives { Gives (λ x. (x.0.now, x.1.now)) result (element_at bytes.now) }
    ensures short { IfOk result (λ x. length x.0.now ≤ 64) }
{
    let (len, rest) = u16_at(0, 64, bytes)?;
    let (bytes, rest) = raw(len as usize, rest)?;
    Ok((bytes, rest))
}

/// The struct of an element.
fn drawn_element(used: &[u8], draws: u32) -> DetElement
    requires { length used.now ≤ 64 }
    ensures { drawn_of result ≡ record { bytes = used.now; draws = draws } }
{
    let mut bytes = [0; 64];
    bytes[..used.len()].copy_from_slice(used);
    DetElement {
        bytes,
        draws,
        len: used.len() as u8,
    }
}

/// Four bytes as a number, and the rest.
pub(crate) fn any_u32(bytes: &[u8]) -> Option<(u32, &[u8])>
    ensures { IsFirst (λ x. (x.0, x.1.now)) result (number 4 0 4294967295 bytes.now) }
{
    if bytes.len() < 4 {
        return None;
    }
    let n = u32::from_be_bytes([bytes[0], bytes[1], bytes[2], bytes[3]]);
    Some((n, bytes.split_at(4).1))
}

/// The element with these bytes, and the rest after its draws.
fn element_of<'a>(format: Format, used: &'a [u8], rest: &'a [u8]) -> Option<(DetElement, &'a [u8])>
    requires { length used.now ≤ 64 }
    ensures { (bytes : List ℕ) → element_at bytes ≡ Got (used.now, rest.now)
        → IsFirst (λ x. (drawn_of x.0, x.1.now)) result (drawn_at format bytes) }
{
    match format {
        Format::One => Some((drawn_element(used, 0), rest)),
        Format::Two => match any_u32(rest) {
            Some((draws, after)) => Some((drawn_element(used, draws), after)),
            None => None,
        },
    }
}

/// The element with which these bytes begin, and the rest.
fn first_element(format: Format, bytes: &[u8]) -> Option<(DetElement, &[u8])>
    ensures { IsFirst (λ x. (drawn_of x.0, x.1.now)) result (drawn_at format bytes.now) }
{
    match element_bytes(bytes) {
        Err(_) => None,
        Ok((used, rest)) => element_of(format, used, rest),
    }
}

fn format_of_elements(frame: &DetFrame) -> Format
    ensures { result ≡ element_format frame.now }
{
    if frame.has_draws {
        Format::Two
    } else {
        Format::One
    }
}

/// Reads the element at `at`, which is then the place after it. The first one is at
/// `frame.elements`. Returns false if no element is there.
#[unsafe(no_mangle)]
pub extern "C" fn det_frame_element(
    frame: &DetFrame,
    bytes: &[u8],
    at: &mut usize,
    element: &mut DetElement,
) -> bool
    ensures { IsElementAnswer result (element_format frame.now) bytes.now
        (element_call at.old element.old) (element_call at.new element.new) }
{
    let rest = rest_from(bytes, *at);
    match first_element(format_of_elements(frame), rest) {
        Some((first, after)) => {
            *at = bytes.len() - after.len();
            *element = first;
            true
        }
        None => false,
    }
}
