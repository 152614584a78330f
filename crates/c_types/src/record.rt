//! The place of a record, which is all that is kept of it between two calls that write or read it.
//! It is a struct of eight bytes that C keeps, and not a handle. A handle that owns memory would
//! need proofs by hand over raw pointers.
ghost use Rattle.std.specs.Prelude.{◌≡◌};
ghost use Rattle.c_types.specs.Places.{format_of, place_of};

use det_values::Format;
use record_grammar::{Layout, Place};

/// The stage is 0 before the header, 1 before Register, 2 before Discover and 3 before Init. It is
/// 4 before a cycle or Terminate, and any other number at the end. The format is 1, or 2 for any
/// other number. After a header `events` is its number of events. In stage 4 `cycles` is the number
/// of cycles so far.
#[repr(C)]
#[derive(Drop)]
pub struct DetRecord {
    pub cycles: u32,
    pub events: u16,
    pub format: u8,
    pub stage: u8,
}

/// The format of a number: 1, or 2 for any other one.
pub fn format_from_number(number: u8) -> Format
    ensures { result ≡ format_of number }
{
    match number {
        1 => Format::One,
        _ => Format::Two,
    }
}

/// The number of a format.
pub fn format_number(format: Format) -> u8
    ensures { format_of result ≡ format }
{
    match format {
        Format::One => 1,
        Format::Two => 2,
    }
}

fn in_stage(stage: u8, layout: Layout, cycles: u32) -> DetRecord
    ensures cycles { result.cycles ≡ cycles }
    ensures events { result.events ≡ layout.events }
    ensures format { format_of result.format ≡ layout.format }
    ensures stage { result.stage ≡ stage }
{
    DetRecord {
        cycles,
        events: layout.events,
        format: format_number(layout.format),
        stage,
    }
}

impl DetRecord {
    /// The place.
    pub fn place(&self) -> Place
        ensures { result ≡ place_of self.now }
    {
        let layout = Layout {
            format: format_from_number(self.format),
            events: self.events,
        };
        match self.stage {
            0 => Place::Header,
            1 => Place::Register(layout),
            2 => Place::Discover(layout),
            3 => Place::Init(layout),
            4 => Place::Runs(layout, self.cycles),
            _ => Place::End,
        }
    }

    /// The struct of a place.
    pub fn from_place(place: Place) -> DetRecord
        ensures { place_of result ≡ place }
    {
        let none = Layout {
            format: Format::Two,
            events: 0,
        };
        match place {
            Place::Header => in_stage(0, none, 0),
            Place::Register(layout) => in_stage(1, layout, 0),
            Place::Discover(layout) => in_stage(2, layout, 0),
            Place::Init(layout) => in_stage(3, layout, 0),
            Place::Runs(layout, cycles) => in_stage(4, layout, cycles),
            Place::End => in_stage(5, none, 0),
        }
    }
}
