//! The opening of an item: the part before its elements, which is read in one step.
ghost use Rattle.std.specs.Prelude.{◌≡◌, ◌≤◌, ◌∷◌, length, drop};
ghost use Rattle.record_grammar.specs.Laws.{tag_reason_at};
ghost use Rattle.record_grammar.specs.Grammar.{input_at};
ghost use Rattle.record_grammar.specs.declared.place.Place.TheVariants as places;
ghost use Rattle.record_view.specs.Opening.{run_opening, tagged_opening, opening_at};
ghost use Rattle.record_view.specs.Scans.{OpensTo, ShowsInputOf};

use crate::field::rest_of;
use crate::header::layout;
use crate::input::{max_samples, skip_refusal, skip_samples, time};
use crate::number::{u8_at, u32_at};
use crate::stop::Stop;
use crate::view::{FrameKind, InputView, ItemKind, OutcomeView};
use record_grammar::{Layout, Place, Reason};

const MAX_ELEMENTS: u32 = 65_536;

const MAX_RUNS: u32 = 1_000_000;

/// The opening of an item: the whole item if it has no elements, otherwise the number of elements
/// that follow.
#[derive(Clone, Copy, Drop)]
pub enum Opening {
    Ready(ItemKind),
    Init(u32),
    Run {
        input: InputView,
        elements: u32,
        elements_at: usize,
    },
}

/// The view of a Run frame's input, and the rest. `bytes` begin with the frame's tag.
#[tactic(auto, unfolding(record_grammar::specs::Grammar::input_at, record_grammar::specs::Grammar::samples_at))]
fn input_view(events: u16, bytes: &[u8]) -> Result<(InputView, &[u8]), Stop>
    requires { 1 ≤ length bytes.now }
    ensures { ShowsInputOf events (λ x. (x.0, x.1.now)) result bytes.now }
{
    let (time, rest) = time(rest_of(bytes, 1))?;
    let (samples, rest) = u32_at(0, max_samples(events), rest)?;
    let samples_at = bytes.len() - rest.len();
    let rest = skip_samples(events, samples, rest)?;
    let input = InputView {
        time,
        samples,
        samples_at,
        outcome_at: bytes.len() - rest.len(),
    };
    Ok((input, rest))
}

/// The opening of a Run frame, and the rest. `bytes` begin with the frame's tag.
#[tactic(auto, unfolding(crate::specs::Opening::run_opening, record_grammar::specs::Grammar::refused_at))]
fn run_opening(layout: Layout, before: u32, bytes: &[u8]) -> Result<(Opening, &[u8]), Stop>
    requires { 1 ≤ length bytes.now }
    ensures { OpensTo (places.Runs layout before) (λ x. (x.0, x.1.now)) result bytes.now
        (run_opening layout (drop 1 bytes.now)) }
{
    let (input, rest) = input_view(layout.events, bytes)?;
    let (flag, rest) = u8_at(0, 1, rest)?;
    if flag == 0 {
        let (elements, rest) = u32_at(0, MAX_ELEMENTS, rest)?;
        let elements_at = bytes.len() - rest.len();
        let run = Opening::Run {
            input,
            elements,
            elements_at,
        };
        return Ok((run, rest));
    }
    let outcome = OutcomeView::Refused {
        at: bytes.len() - rest.len(),
    };
    let rest = skip_refusal(rest)?;
    let kind = ItemKind::Frame(FrameKind::Run { input, outcome });
    Ok((Opening::Ready(kind), rest))
}

/// Why a tag is refused in a place.
fn reason_of(place: Place, tag: u8) -> Reason
    ensures { result ≡ tag_reason_at place tag }
{
    match (place, tag) {
        (Place::End, _) => Reason::Trailing,
        (Place::Runs(..), 4) => Reason::TooMany,
        (_, 1..=5) => Reason::Order,
        _ => Reason::Range,
    }
}

/// The opening of a frame, and the rest. `bytes` begin with the frame's tag, and `rest` are the
/// bytes after it.
#[tactic(auto, unfolding(crate::specs::Opening::tagged_opening))]
fn tagged_opening<'a>(
    place: Place,
    tag: u8,
    rest: &'a [u8],
    bytes: &'a [u8],
) -> Result<(Opening, &'a [u8]), Stop>
    requires { bytes.now ≡ tag ∷ rest.now }
    ensures { OpensTo place (λ x. (x.0, x.1.now)) result bytes.now
        (tagged_opening place tag rest.now (length bytes.now)) }
{
    match (place, tag) {
        (Place::Register(_), 1) => {
            Ok((Opening::Ready(ItemKind::Frame(FrameKind::Register)), rest))
        }
        (Place::Discover(_), 2) => {
            Ok((Opening::Ready(ItemKind::Frame(FrameKind::Discover)), rest))
        }
        (Place::Init(_), 3) => match u32_at(0, MAX_ELEMENTS, rest) {
            Err(stop) => Err(stop),
            Ok((elements, others)) => Ok((Opening::Init(elements), others)),
        },
        (Place::Runs(layout, before), 4) if before < MAX_RUNS => run_opening(layout, before, bytes),
        (Place::Runs(..), 5) => {
            Ok((Opening::Ready(ItemKind::Frame(FrameKind::Terminate)), rest))
        }
        _ => Err(Stop::Bad {
            reason: reason_of(place, tag),
            left: bytes.len(),
        }),
    }
}

/// The opening of the item that may come in a place, and the rest.
#[tactic(auto, unfolding(crate::specs::Opening::opening_at))]
pub fn read_opening(place: Place, bytes: &[u8]) -> Result<(Opening, &[u8]), Stop>
    ensures { OpensTo place (λ x. (x.0, x.1.now)) result bytes.now (opening_at place bytes.now) }
{
    if let Place::Header = place {
        let (layout, rest) = layout(bytes)?;
        return Ok((Opening::Ready(ItemKind::Header(layout)), rest));
    }
    match bytes {
        [] => Err(Stop::More),
        [tag, rest @ ..] => tagged_opening(place, *tag, rest, bytes),
    }
}
