//! The first difference of two items, found in their bytes without making values of them.
//! `first_frame_difference` finds the same in two frames that are values.
ghost use Rattle.std.specs.Prelude.{◌≡◌, ◌≤◌, ℕ, length};
ghost use Rattle.std.specs.Cmp.Lexicographic.{pointwise};
ghost use Rattle.det_values.specs.Equal.{drawn_eq};
ghost use Rattle.det_values.specs.contracts.sample.SamplePartialEq.TheImpl as sample;
ghost use Rattle.det_values.specs.declared.frames.Frame.{Frame};
ghost use Rattle.det_values.specs.declared.frames.RunFrame.{RunFrame};
ghost use Rattle.det_values.specs.Values.{ProfileValue};
ghost use Rattle.record_grammar.specs.declared.item.Item.{Item};
ghost use Rattle.record_grammar.specs.declared.item.Item.TheVariants as items;
ghost use Rattle.record_view.specs.Shows.{IsSpelling, IsFrameSpelling};
ghost use Rattle.copies.specs.declared.row.Row.TheVariants as rows;
ghost use Rattle.copies.specs.FirstDifference.{first_apart, frame_difference};
ghost use Rattle.copies.specs.FirstDifference.{run_difference, outcome_difference};
ghost use Rattle.copies.specs.Verdict.{row_difference};
ghost use Rattle.copies.specs.Views.{IsRunIn};

use crate::Difference;
use crate::frame_differences::at_element;
use record_grammar::Place;
use record_view::{
    ElementWalk, FrameKind, FrameView, InputView, ItemView, OutcomeView, SampleWalk,
    are_equal_items, events_at, format_at, view_elements, view_init_elements, view_output,
    view_refusal, view_samples,
};

/// The first difference of two items of one row, in the order of the variants of `Difference`. Row
/// 0 has the headers, and row f + 1 has the frames f. It allocates nothing.
pub fn item_difference(
    row: u32,
    left: ItemView,
    left_bytes: &[u8],
    right: ItemView,
    right_bytes: &[u8],
) -> Option<Difference>
    requires { (a b : Item) × IsSpelling left a left_bytes.now
        × IsSpelling right b right_bytes.now }
    ensures { (a b : Item) → IsSpelling left a left_bytes.now → IsSpelling right b right_bytes.now
        → result ≡ row_difference row (rows.Item a) (rows.Item b) }
{
    let frame = row.saturating_sub(1);
    match left.as_frame() {
        None => match right.as_frame() {
            None => header_difference(left, left_bytes, right, right_bytes),
            Some(_) => Some(Difference::Kind(frame)),
        },
        Some(left) => match right.as_frame() {
            None => Some(Difference::Kind(frame)),
            Some(right) => frame_difference(frame, left, left_bytes, right, right_bytes),
        },
    }
}

/// The difference of two headers. Headers are equal exactly where their bytes are.
fn header_difference(
    left: ItemView,
    left_bytes: &[u8],
    right: ItemView,
    right_bytes: &[u8],
) -> Option<Difference>
    requires { (p q : ProfileValue) × IsSpelling left (items.Header p) left_bytes.now
        × IsSpelling right (items.Header q) right_bytes.now }
    ensures { (p q : ProfileValue) → IsSpelling left (items.Header p) left_bytes.now
        → IsSpelling right (items.Header q) right_bytes.now → (number : ℕ)
        → result ≡ row_difference number (rows.Item (items.Header p)) (rows.Item (items.Header q)) }
{
    if are_equal_items(left, left_bytes, right, right_bytes) {
        return None;
    }
    Some(Difference::Header)
}

/// The first difference of two frames of one number, in the order of the variants of `Difference`.
/// It allocates nothing.
pub fn frame_difference(
    frame: u32,
    left: FrameView,
    left_bytes: &[u8],
    right: FrameView,
    right_bytes: &[u8],
) -> Option<Difference>
    requires { (a b : Frame) × IsFrameSpelling left a left_bytes.now
        × IsFrameSpelling right b right_bytes.now }
    ensures { (a b : Frame) → IsFrameSpelling left a left_bytes.now
        → IsFrameSpelling right b right_bytes.now → result ≡ frame_difference frame a b }
{
    let cycle = frame.saturating_sub(2);
    match left.kind {
        FrameKind::Register => match right.kind {
            FrameKind::Register => None,
            _ => Some(Difference::Kind(frame)),
        },
        FrameKind::Discover => match right.kind {
            FrameKind::Discover => None,
            _ => Some(Difference::Kind(frame)),
        },
        FrameKind::Init { elements } => match right.kind {
            FrameKind::Init { elements: others } => {
                let left = view_init_elements(elements, left_bytes);
                let right = view_init_elements(others, right_bytes);
                at_element(cycle, elements_apart(elements.max(others), left, right))
            }
            _ => Some(Difference::Kind(frame)),
        },
        FrameKind::Run { input, outcome } => match right.kind {
            FrameKind::Run {
                input: other_input,
                outcome: other_outcome,
            } => {
                let left = run_view(left.place, input, outcome);
                let right = run_view(right.place, other_input, other_outcome);
                run_difference(cycle, left, left_bytes, right, right_bytes)
            }
            _ => Some(Difference::Kind(frame)),
        },
        FrameKind::Terminate => match right.kind {
            FrameKind::Terminate => None,
            _ => Some(Difference::Kind(frame)),
        },
    }
}

/// A Run frame, by its view.
#[derive(Clone, Copy, Drop)]
struct RunView {
    place: Place,
    input: InputView,
    outcome: OutcomeView,
}

fn run_view(place: Place, input: InputView, outcome: OutcomeView) -> RunView
    ensures { result ≡ record { place = place; input = input; outcome = outcome } }
{
    RunView {
        place,
        input,
        outcome,
    }
}

/// The first difference of two runs of a cycle.
fn run_difference(
    cycle: u32,
    left: RunView,
    left_bytes: &[u8],
    right: RunView,
    right_bytes: &[u8],
) -> Option<Difference>
    requires { (a b : RunFrame) × IsRunIn left left_bytes.now a × IsRunIn right right_bytes.now b }
    ensures { (a b : RunFrame) → IsRunIn left left_bytes.now a → IsRunIn right right_bytes.now b
        → result ≡ run_difference cycle a b }
{
    if left.input.time != right.input.time {
        return Some(Difference::Time(cycle));
    }
    let most = left.input.samples.max(right.input.samples);
    let samples = view_samples(events_at(left.place), left.input, left_bytes);
    let others = view_samples(events_at(right.place), right.input, right_bytes);
    if !are_same_samples(most, samples, others) {
        return Some(Difference::Samples(cycle));
    }
    outcome_difference(cycle, left, left_bytes, right, right_bytes)
}

/// The first difference of two outcomes of a cycle.
fn outcome_difference(
    cycle: u32,
    left: RunView,
    left_bytes: &[u8],
    right: RunView,
    right_bytes: &[u8],
) -> Option<Difference>
    requires { (a b : RunFrame) × IsRunIn left left_bytes.now a × IsRunIn right right_bytes.now b }
    ensures { (a b : RunFrame) → IsRunIn left left_bytes.now a → IsRunIn right right_bytes.now b
        → result ≡ outcome_difference cycle a.outcome b.outcome }
{
    match left.outcome {
        OutcomeView::Finished {
            elements,
            elements_at,
            output_at,
        } => match right.outcome {
            OutcomeView::Finished {
                elements: others,
                elements_at: others_at,
                output_at: other_at,
            } => {
                let most = elements.max(others);
                let left_walk = view_elements(
                    format_at(left.place),
                    elements,
                    elements_at,
                    left_bytes,
                );
                let right_walk = view_elements(
                    format_at(right.place),
                    others,
                    others_at,
                    right_bytes,
                );
                match elements_apart(most, left_walk, right_walk) {
                    Some(element) => Some(Difference::Element { cycle, element }),
                    None
                        if view_output(output_at, left_bytes)
                            != view_output(other_at, right_bytes) => {
                        Some(Difference::Output(cycle))
                    }
                    None => None,
                }
            }
            OutcomeView::Refused { .. } => Some(Difference::Result(cycle)),
        },
        OutcomeView::Refused { at } => match right.outcome {
            OutcomeView::Finished { .. } => Some(Difference::Result(cycle)),
            OutcomeView::Refused { at: other } => {
                if view_refusal(at, left_bytes) != view_refusal(other, right_bytes) {
                    return Some(Difference::Result(cycle));
                }
                None
            }
        },
    }
}

/// Whether two lists of at most `most` samples are equal.
fn are_same_samples(most: u32, left: SampleWalk<'_>, right: SampleWalk<'_>) -> bool
    requires left { length left ≤ most }
    requires right { length right ≤ most }
    ensures { result ≡ pointwise sample.eq-value.it left.entry right.entry }
{
    let mut left = left;
    let mut right = right;
    'samples: for _ in 0..most {
        if left.next() != right.next() {
            return false;
        }
    }
    true
}

/// The least index at which two lists of at most `most` elements differ.
fn elements_apart(most: u32, left: ElementWalk<'_>, right: ElementWalk<'_>) -> Option<u32>
    requires left { length left ≤ most }
    requires right { length right ≤ most }
    ensures { result ≡ first_apart drawn_eq 0 left.entry right.entry }
{
    let mut left = left;
    let mut right = right;
    'elements: for index in 0..most {
        if left.next() != right.next() {
            return Some(index);
        }
    }
    None
}
