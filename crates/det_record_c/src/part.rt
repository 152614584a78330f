//! A part of a record, by the values that C passes, and the place of a record before and after it.
ghost use Rattle.std.specs.Prelude.{◌≡◌, ◌↔◌, IsTrue};
ghost use Rattle.record_grammar.specs.Places.{after, CanFollow};
ghost use Rattle.record_grammar.specs.declared.item.Item.TheVariants as items;
ghost use Rattle.det_values.specs.declared.frames.Frame.TheVariants as frames;
ghost use Rattle.det_values.specs.declared.frames.RunFrame.{RunFrame};
ghost use Rattle.c_types.specs.Places.{place_of};
ghost use Rattle.det_record_c.specs.Parts.{item_in, IsSound};
ghost use Rattle.det_record_c.specs.Runs.{TakesCycle};

use c_types::{DetElement, DetEvent, DetProfile, DetRecord, DetRefusal, DetSample, DetTime};
use record_grammar::Place;

#[derive(Clone, Copy)]
pub(crate) enum Part<'c> {
    Header {
        profile: &'c DetProfile,
        params: &'c [i64],
        events: &'c [DetEvent],
    },
    Register,
    Discover,
    Init {
        elements: &'c [DetElement],
    },
    Finished {
        time: &'c DetTime,
        samples: &'c [DetSample],
        elements: &'c [DetElement],
        output: &'c [u8],
    },
    Refused {
        time: &'c DetTime,
        samples: &'c [DetSample],
        refusal: &'c DetRefusal,
    },
    Terminate,
}

/// Whether a cycle may come now.
pub(crate) fn takes_cycle(state: &DetRecord) -> bool
    ensures takes { IsTrue result ↔ TakesCycle state.now }
    ensures run { (run : RunFrame) → IsTrue result
        ↔ CanFollow (place_of state.now) (items.Frame (frames.Run run)) }
{
    match state.place() {
        Place::Runs(_, before) => before < 1_000_000,
        _ => false,
    }
}

/// Whether a part may come now.
pub(crate) fn takes(state: &DetRecord, part: &Part<'_>) -> bool
    ensures { IsTrue result ↔ CanFollow (place_of state.now) (item_in state.now part.now) }
{
    match *part {
        Part::Header { .. } => matches!(state.place(), Place::Header),
        Part::Register => matches!(state.place(), Place::Register(_)),
        Part::Discover => matches!(state.place(), Place::Discover(_)),
        Part::Init { .. } => matches!(state.place(), Place::Init(_)),
        Part::Finished { .. } => takes_cycle(state),
        Part::Refused { .. } => takes_cycle(state),
        Part::Terminate => matches!(state.place(), Place::Runs(..)),
    }
}

/// Moves a record to the place after a part.
pub(crate) fn step(state: &mut DetRecord, part: &Part<'_>)
    requires follows { CanFollow (place_of state.old) (item_in state.old part.now) }
    requires sound { IsSound state.old part.now }
    ensures { place_of state.new ≡ after (place_of state.old) (item_in state.old part.now) }
{
    match *part {
        Part::Header { events, .. } => {
            state.stage = 1;
            state.events = events.len() as u16;
        }
        Part::Register => state.stage = 2,
        Part::Discover => state.stage = 3,
        Part::Init { .. } => {
            state.stage = 4;
            state.cycles = 0;
        }
        Part::Finished { .. } => state.cycles += 1,
        Part::Refused { .. } => state.cycles += 1,
        Part::Terminate => state.stage = 5,
    }
}
