//! The first difference of two frames that are values. `item_difference` finds the same in the
//! bytes of two frames.
ghost use Rattle.std.specs.Prelude.{◌≡◌, ◌≤◌, ℕ, nat_eq, None, length, ◌↔◌};
ghost use Rattle.std.specs.Option.{option_map};
ghost use Rattle.std.specs.Cmp.Lexicographic.{pointwise};
ghost use Rattle.det_values.specs.Equal.{drawn_eq};
ghost use Rattle.copies.specs.FirstDifference.{first_apart, frame_difference, run_difference};
ghost use Rattle.copies.specs.FirstDifference.{outcome_difference};
ghost use Rattle.copies.specs.declared.difference.Difference.TheVariants as differences;

use crate::Difference;
use det_values::{Bytes64, DrawnElements, Frame, Outcome, RunFrame};

/// The first difference of two frames of this number, in the order of the variants of `Difference`.
/// Frames 0 to 2 belong to cycle 0. It allocates nothing, and finds equal frames by one comparison.
pub fn first_frame_difference(frame: u32, left: &Frame, right: &Frame) -> Option<Difference>
    ensures first { result ≡ frame_difference frame left.now right.now }
    ensures equal { (result ≡ None) ↔ (left.now ≡ right.now) }
{
    if left == right {
        return None;
    }
    let cycle = frame.saturating_sub(2);
    match left {
        Frame::Init(left) => match right {
            Frame::Init(right) => {
                at_element(cycle, elements_apart(left.as_slice(), right.as_slice()))
            }
            _ => Some(Difference::Kind(frame)),
        },
        Frame::Run(left) => match right {
            Frame::Run(right) => difference_of_runs(cycle, left, right),
            _ => Some(Difference::Kind(frame)),
        },
        Frame::Register | Frame::Discover | Frame::Terminate => Some(Difference::Kind(frame)),
    }
}

/// The first difference of two runs of a cycle.
fn difference_of_runs(cycle: u32, left: &RunFrame, right: &RunFrame) -> Option<Difference>
    ensures { result ≡ run_difference cycle left.now right.now }
{
    if left.input.time != right.input.time {
        return Some(Difference::Time(cycle));
    }
    if left.input.samples != right.input.samples {
        return Some(Difference::Samples(cycle));
    }
    difference_of_outcomes(cycle, &left.outcome, &right.outcome)
}

/// The first difference of two outcomes of a cycle.
fn difference_of_outcomes(cycle: u32, left: &Outcome, right: &Outcome) -> Option<Difference>
    ensures { result ≡ outcome_difference cycle left.now right.now }
{
    match left {
        Outcome::Finished {
            elements: left_elements,
            output: left_output,
        } => match right {
            Outcome::Finished { elements, output } => {
                if left_elements != elements {
                    return at_element(cycle, drawn_difference(left_elements, elements));
                }
                if left_output != output {
                    return Some(Difference::Output(cycle));
                }
                None
            }
            Outcome::Refused(_) => Some(Difference::Result(cycle)),
        },
        Outcome::Refused(left) => match right {
            Outcome::Finished { .. } => Some(Difference::Result(cycle)),
            Outcome::Refused(right) => {
                if left != right {
                    return Some(Difference::Result(cycle));
                }
                None
            }
        },
    }
}

/// The difference at this element of a cycle, if there is one.
pub(crate) fn at_element(cycle: u32, element: Option<u32>) -> Option<Difference>
    ensures { result ≡ option_map (differences.Element cycle) element }
{
    match element {
        Some(element) => Some(Difference::Element { cycle, element }),
        None => None,
    }
}

/// The least index at which two lists of elements differ. An end before the other counts.
fn elements_apart(left: &[Bytes64], right: &[Bytes64]) -> Option<u32>
    requires left { length left.now ≤ 65536 }
    requires right { length right.now ≤ 65536 }
    ensures { result ≡ first_apart (pointwise nat_eq) 0 left.now right.now }
{
    'elements: for index in 0..left.len().max(right.len()) {
        if left.get(index) != right.get(index) {
            return Some(index as u32);
        }
    }
    None
}

/// The least index at which two lists of elements differ in their bytes or their draws.
fn drawn_difference(left: &DrawnElements, right: &DrawnElements) -> Option<u32>
    ensures { result ≡ first_apart drawn_eq 0 left.now right.now }
{
    let most = left.len().max(right.len());
    let mut left_walk = left.walk();
    let mut right_walk = right.walk();
    'elements: for index in 0..most {
        if left_walk.next() != right_walk.next() {
            return Some(index as u32);
        }
    }
    None
}
