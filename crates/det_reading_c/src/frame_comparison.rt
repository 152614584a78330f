//! The export that compares two frames.
ghost use Rattle.std.specs.Prelude.{◌≡◌};
ghost use Rattle.det_reading_c.specs.Comparisons.{frame_place, IsWholeFrame, IsPlaceOf};
ghost use Rattle.det_reading_c.specs.Comparisons.{ComparesFrames, layout_with};

use crate::reading::no_scan;
use c_types::DetPlace;
use copies::{Difference, frame_difference};
use det_values::Format;
use record_grammar::{Layout, Place};
use record_view::{FrameView, ItemView, view_item};

const EQUAL: u8 = 0;

const DIFFER: u8 = 1;

const NONE: u8 = 2;

fn layout_with(format: u8, events: u16) -> Layout
    ensures { result ≡ layout_with format events }
{
    let format = match format {
        1 => Format::One,
        _ => Format::Two,
    };
    Layout { format, events }
}

fn frame_place(layout: Layout, number: u32) -> Place
    ensures { result ≡ frame_place layout number }
{
    match number {
        0 => Place::Register(layout),
        1 => Place::Discover(layout),
        2 => Place::Init(layout),
        _ => Place::Runs(layout, number.saturating_sub(3)),
    }
}

/// The view of the frame that is all of these bytes.
fn whole_frame(place: Place, bytes: &[u8]) -> Option<FrameView>
    ensures { IsWholeFrame result place bytes.now }
{
    match view_item(place, no_scan(), bytes).answer {
        Err(_) => None,
        Ok(span) => {
            if span.len != bytes.len() {
                return None;
            }
            ItemView { place, span }.as_frame()
        }
    }
}

/// A place with no element.
fn in_cycle(what: u8, number: u32) -> DetPlace
    ensures what { result.what ≡ what }
    ensures number { result.number ≡ number }
{
    DetPlace {
        number,
        element: 0,
        what,
    }
}

fn place_of(difference: Difference) -> DetPlace
    ensures { IsPlaceOf difference result }
{
    match difference {
        Difference::Header => in_cycle(0, 0),
        Difference::Kind(number) => in_cycle(1, number),
        Difference::Time(cycle) => in_cycle(2, cycle),
        Difference::Samples(cycle) => in_cycle(3, cycle),
        Difference::Result(cycle) => in_cycle(4, cycle),
        Difference::Element { cycle, element } => DetPlace {
            number: cycle,
            element,
            what: 5,
        },
        Difference::Output(cycle) => in_cycle(6, cycle),
    }
}

/// Compares two frames of one number, counted from 0, of two records with this format and this
/// number of events. Returns 0 if they are equal, 1 with their first difference, and 2 if one of
/// them isn't a whole frame.
#[unsafe(no_mangle)]
pub extern "C" fn det_frame_difference(
    format: u8,
    events: u16,
    number: u32,
    left: &[u8],
    right: &[u8],
    place: &mut DetPlace,
) -> u8
    ensures { ComparesFrames result (frame_place (layout_with format events) number) number
        left.now right.now place.old place.new }
{
    let at = frame_place(layout_with(format, events), number);
    let Some(one) = whole_frame(at, left) else {
        return NONE;
    };
    let Some(other) = whole_frame(at, right) else {
        return NONE;
    };
    match frame_difference(number, one, left, other, right) {
        None => EQUAL,
        Some(difference) => {
            *place = place_of(difference);
            DIFFER
        }
    }
}
