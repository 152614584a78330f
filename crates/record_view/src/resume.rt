//! Checks an item against the grammar, from where the last step left off.
ghost use Rattle.std.specs.Prelude.{◌≡◌, ◌≤◌, length, drop};
ghost use Rattle.record_grammar.specs.Places.{format_of};
ghost use Rattle.record_grammar.specs.declared.place.Place.TheVariants as places;
ghost use Rattle.record_view.specs.Scans.{IsScan, InitScan, RunScan, IsStep, Fits};

use crate::field::{output, rest_of};
use crate::next_place::format_at;
use crate::opening::{Opening, read_opening};
use crate::partial::{Partial, PartialRun, Scan, Step};
use crate::skip::{skip_drawn, skip_elements};
use crate::stop::Stop;
use crate::view::{FrameKind, ItemKind, ItemSpan, OutcomeView};
use det_values::Format;
use record_grammar::Place;

/// A step that ends with a whole item.
fn whole_step(kind: ItemKind, len: usize) -> Step
    ensures { result.answer ≡ Ok (record { kind = kind; len = len }) }
{
    Step {
        scan: Scan {
            partial: Partial::Nothing,
            read: 0,
        },
        answer: Ok(ItemSpan { kind, len }),
    }
}

/// A step that ends before the item does, or with a fault.
fn stopped_step(partial: Partial, read: usize, stop: Stop) -> Step
    ensures { result ≡ record {
      scan = record { partial = partial; read = read };
      answer = Err stop;
    } }
{
    Step {
        scan: Scan { partial, read },
        answer: Err(stop),
    }
}

/// Checks the remaining elements of an Init frame.
fn resume_init(place: Place, elements: u32, left: u32, read: usize, bytes: &[u8]) -> Step
    requires { read ≤ length bytes.now }
    ensures viewed { InitScan place elements left read bytes.now
        → IsStep place result bytes.now }
    ensures fits { Fits result (length bytes.now) }
{
    let skip = skip_elements(left, rest_of(bytes, read));
    let read = read + skip.read;
    match skip.stop {
        None => whole_step(ItemKind::Frame(FrameKind::Init { elements }), read),
        Some(stop) => {
            let left = skip.left;
            stopped_step(Partial::Init { elements, left }, read, stop)
        }
    }
}

/// Checks the remaining elements of a finished cycle, and the output.
fn resume_run(place: Place, format: Format, run: PartialRun, read: usize, bytes: &[u8]) -> Step
    requires format { format ≡ format_of place }
    requires read { read ≤ length bytes.now }
    ensures viewed { RunScan place run read bytes.now → IsStep place result bytes.now }
    ensures fits { Fits result (length bytes.now) }
{
    let skip = skip_drawn(format, run.left, rest_of(bytes, read));
    let read = read + skip.read;
    let ended = match skip.stop {
        Some(stop) => Err(stop),
        None => output(rest_of(bytes, read)),
    };
    match ended {
        Err(stop) => {
            let left = skip.left;
            stopped_step(Partial::Run(PartialRun { left, ..run }), read, stop)
        }
        Ok((_, rest)) => {
            let outcome = OutcomeView::Finished {
                elements: run.elements,
                elements_at: run.elements_at,
                output_at: read,
            };
            let input = run.input;
            let kind = FrameKind::Run { input, outcome };
            whole_step(ItemKind::Frame(kind), bytes.len() - rest.len())
        }
    }
}

/// Checks an item from its first byte.
fn start(place: Place, bytes: &[u8]) -> Step
    ensures viewed { IsStep place result bytes.now }
    ensures fits { Fits result (length bytes.now) }
{
    match read_opening(place, bytes) {
        Err(stop) => stopped_step(Partial::Nothing, 0, stop),
        Ok((opening, rest)) => {
            let read = bytes.len() - rest.len();
            match opening {
                Opening::Ready(kind) => whole_step(kind, read),
                Opening::Init(elements) => resume_init(place, elements, elements, read, bytes),
                Opening::Run {
                    input,
                    elements,
                    elements_at,
                } => {
                    let run = PartialRun {
                        input,
                        elements,
                        elements_at,
                        left: elements,
                    };
                    resume_run(place, format_at(place), run, read, bytes)
                }
            }
        }
    }
}

/// Checks the item that may come in a place. `bytes` begin with all of its bytes so far. `scan` is
/// the one that the last step on this item returned; for the first step it is `Partial::Nothing`
/// and 0.
pub fn view_item(place: Place, scan: Scan, bytes: &[u8]) -> Step
    requires { scan.read ≤ length bytes.now }
    ensures viewed { IsScan place scan bytes.now → IsStep place result bytes.now }
    ensures fits { Fits result (length bytes.now) }
{
    match scan.partial {
        Partial::Nothing => start(place, bytes),
        Partial::Init { elements, left } => resume_init(place, elements, left, scan.read, bytes),
        Partial::Run(run) => resume_run(place, format_at(place), run, scan.read, bytes),
    }
}
