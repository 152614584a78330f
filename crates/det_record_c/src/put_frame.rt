//! Frames and their parts, put into the room that C gave.
#![tactic(auto, using(crate::proofs::Putting::puts_then))]

ghost use Rattle.std.specs.Prelude.{◌≡◌, ◌≤◌, ◌<◌, ◌^◌, ◌∷◌, ◌++◌, length, map};
ghost use Rattle.std.specs.List.{flat_map, All};
ghost use Rattle.record_grammar.specs.Grammar.{phase_of};
ghost use Rattle.record_grammar.specs.Spelling.{spelled_element, IsElement, spelled_drawn, IsDrawn};
ghost use Rattle.record_grammar.specs.Spelling.{spelled_time, IsTime, spelled_sample, AreBytes};
ghost use Rattle.record_grammar.specs.Spelling.{spelled_input, phase_number, spelled_refusal};
ghost use Rattle.det_values.specs.Spelling.{spelled_u32};
ghost use Rattle.c_types.specs.CValues.{sample_of, bytes_of, time_of, input_of, place_of_refusal};
ghost use Rattle.c_types.specs.Ranges.{AreSoundElements};
ghost use Rattle.det_record_c.specs.Items.{element_in, drawn_in};
ghost use Rattle.det_record_c.specs.Puts.{Puts};
ghost use Rattle.det_record_c.specs.Runs.{opening_of, closing_of};

use crate::put::{put, put_i64, put_u8, put_u16, put_u32, put_u64};
use c_types::{DetElement, DetRefusal, DetSample, DetTime};
use det_values::Format;

/// An element: its length in two bytes, and then its bytes.
fn put_element(out: &mut [u8], at: usize, bytes: &[u8]) -> usize
    requires { length bytes.now ≤ 64 }
    ensures puts { Puts at (spelled_element bytes.now) out.old result out.new }
    ensures fields { IsElement bytes.now }
{
    let at = put_u16(out, at, bytes.len() as u16);
    put(out, at, bytes)
}

/// An initial element. Its draws are ignored.
fn put_initial(out: &mut [u8], at: usize, element: &DetElement) -> usize
    requires { element.now.len ≤ 64 }
    ensures puts { Puts at (spelled_element (bytes_of element.now)) out.old result out.new }
    ensures fields { IsElement (bytes_of element.now) }
{
    put_element(out, at, element.used_bytes())
}

fn put_elements(out: &mut [u8], at: usize, elements: &[DetElement]) -> usize
    requires { AreSoundElements elements.now }
    ensures puts { Puts at (flat_map spelled_element (map bytes_of elements.now)) out.old result
        out.new }
    ensures fields { All IsElement (map bytes_of elements.now) }
{
    let mut end = at;
    for element in elements {
        end = put_initial(out, end, element);
    }
    end
}

/// The Init frame.
pub(crate) fn put_init(out: &mut [u8], elements: &[DetElement]) -> usize
    requires { AreSoundElements elements.now }
    ensures puts { Puts 0 (3 ∷ (spelled_u32 (length elements.now)
        ++ flat_map spelled_element (map bytes_of elements.now))) out.old result out.new }
    ensures fields { All IsElement (map bytes_of elements.now) }
{
    let at = put_u8(out, 0, 3);
    let at = put_u32(out, at, elements.len() as u32);
    put_elements(out, at, elements)
}

/// An element and, in format 2, its draws.
pub(crate) fn put_drawn(
    out: &mut [u8],
    at: usize,
    format: Format,
    bytes: &[u8],
    draws: u32,
) -> usize
    requires { length bytes.now ≤ 64 }
    ensures puts { Puts at (spelled_drawn format (element_in format bytes.now draws)) out.old result
        out.new }
    ensures fields { IsDrawn format (element_in format bytes.now draws) }
{
    let at = put_element(out, at, bytes);
    match format {
        Format::One => at,
        Format::Two => put_u32(out, at, draws),
    }
}

/// An element of a cycle that finished.
fn put_final(out: &mut [u8], at: usize, format: Format, element: &DetElement) -> usize
    requires { element.now.len ≤ 64 }
    ensures puts { Puts at (spelled_drawn format (drawn_in format element.now)) out.old result
        out.new }
    ensures fields { IsDrawn format (drawn_in format element.now) }
{
    put_drawn(out, at, format, element.used_bytes(), element.draws)
}

fn put_all_drawn(out: &mut [u8], at: usize, format: Format, elements: &[DetElement]) -> usize
    requires { AreSoundElements elements.now }
    ensures puts { Puts at (flat_map (spelled_drawn format) (map (drawn_in format) elements.now))
        out.old result out.new }
    ensures fields { All (IsDrawn format) (map (drawn_in format) elements.now) }
{
    let mut end = at;
    for element in elements {
        end = put_final(out, end, format, element);
    }
    end
}

fn put_time(out: &mut [u8], at: usize, time: Option<u64>) -> usize
    ensures puts { Puts at (spelled_time time) out.old result out.new }
    ensures fields { IsTime time }
{
    match time {
        None => put_u8(out, at, 0),
        Some(time) => {
            let at = put_u8(out, at, 1);
            put_u64(out, at, time)
        }
    }
}

fn put_sample(out: &mut [u8], at: usize, sample: &DetSample) -> usize
    ensures { Puts at (spelled_sample (sample_of sample.now)) out.old result out.new }
{
    let at = put_u16(out, at, sample.event);
    put_i64(out, at, &sample.value)
}

fn put_samples(out: &mut [u8], at: usize, samples: &[DetSample]) -> usize
    ensures { Puts at (flat_map spelled_sample (map sample_of samples.now)) out.old result out.new }
{
    let mut end = at;
    for sample in samples {
        end = put_sample(out, end, sample);
    }
    end
}

fn put_input(out: &mut [u8], at: usize, time: &DetTime, samples: &[DetSample]) -> usize
    requires { length samples.now ≤ 4096 }
    ensures puts { Puts at (spelled_input (input_of time.now samples.now)) out.old result out.new }
    ensures fields { IsTime (time_of time.now) }
{
    let at = put_time(out, at, time.time());
    let at = put_u32(out, at, samples.len() as u32);
    put_samples(out, at, samples)
}

/// What comes before the elements of a cycle that finished with `count` of them.
pub(crate) fn put_opening(
    out: &mut [u8],
    time: &DetTime,
    samples: &[DetSample],
    count: u32,
) -> usize
    requires { length samples.now ≤ 4096 }
    ensures puts { Puts 0 (opening_of (input_of time.now samples.now) count) out.old result
        out.new }
    ensures fields { IsTime (time_of time.now) }
{
    let at = put_u8(out, 0, 4);
    let at = put_input(out, at, time, samples);
    let at = put_u8(out, at, 0);
    put_u32(out, at, count)
}

/// What comes after the elements: the length of the output, and the output.
pub(crate) fn put_closing(out: &mut [u8], at: usize, output: &[u8]) -> usize
    requires { length output.now ≤ 1048576 }
    ensures puts { Puts at (closing_of output.now) out.old result out.new }
    ensures fields { AreBytes output.now }
{
    let at = put_u32(out, at, output.len() as u32);
    put(out, at, output)
}

/// The Run frame of a cycle that finished.
pub(crate) fn put_finished(
    out: &mut [u8],
    format: Format,
    time: &DetTime,
    samples: &[DetSample],
    elements: &[DetElement],
    output: &[u8],
) -> usize
    requires samples { length samples.now ≤ 4096 }
    requires elements { AreSoundElements elements.now }
    requires output { length output.now ≤ 1048576 }
    ensures puts { Puts 0 (opening_of (input_of time.now samples.now) (length elements.now)
        ++ (flat_map (spelled_drawn format) (map (drawn_in format) elements.now)
        ++ closing_of output.now)) out.old result out.new }
    ensures time { IsTime (time_of time.now) }
    ensures elements { All (IsDrawn format) (map (drawn_in format) elements.now) }
    ensures output { AreBytes output.now }
{
    let at = put_opening(out, time, samples, elements.len() as u32);
    let at = put_all_drawn(out, at, format, elements);
    put_closing(out, at, output)
}

fn phase_byte(phase: u8) -> u8
    ensures { result ≡ phase_number (phase_of phase) }
{
    match phase {
        0 => 0,
        1 => 1,
        _ => 2,
    }
}

fn put_refusal(out: &mut [u8], at: usize, refusal: &DetRefusal) -> usize
    ensures puts { Puts at (spelled_refusal (place_of_refusal refusal.now)) out.old result out.new }
    ensures fields { refusal.now.code < 2 ^ 32 }
{
    let at = put_u8(out, at, phase_byte(refusal.phase));
    let at = put_u8(out, at, refusal.pass);
    let at = put_u32(out, at, refusal.element);
    put_u32(out, at, refusal.code)
}

/// The Run frame of a cycle that was refused.
pub(crate) fn put_refused(
    out: &mut [u8],
    time: &DetTime,
    samples: &[DetSample],
    refusal: &DetRefusal,
) -> usize
    requires { length samples.now ≤ 4096 }
    ensures puts { Puts 0 (4 ∷ (spelled_input (input_of time.now samples.now)
        ++ (1 ∷ spelled_refusal (place_of_refusal refusal.now)))) out.old result out.new }
    ensures time { IsTime (time_of time.now) }
    ensures code { refusal.now.code < 2 ^ 32 }
{
    let at = put_u8(out, 0, 4);
    let at = put_input(out, at, time, samples);
    let at = put_u8(out, at, 1);
    put_refusal(out, at, refusal)
}
