//! The exports. Each returns 0 if the part is written, and it is in the first `written` bytes of
//! `out` then. It returns 1 if the part may not come now, 2 if a value is out of its range, and 3
//! for too little room in `out`. If it isn't 0, nothing is changed.
//!
//! A part is checked as a whole, its place first. Its bytes are counted before one of them is
//! written.
ghost use Rattle.std.specs.Prelude.{◌≡◌, ◌↔◌, ◌⊎◌, [], IsTrue, false};
ghost use Rattle.record_grammar.specs.declared.item.Item.TheVariants as items;
ghost use Rattle.det_values.specs.declared.frames.Frame.TheVariants as frames;
ghost use Rattle.c_types.specs.CValues.{init_of, refused_of};
ghost use Rattle.c_types.specs.Places.{format_of};
ghost use Rattle.c_types.specs.Ranges.{AreSoundElements, IsSoundFinish, IsSoundRefusal};
ghost use Rattle.det_record_c.specs.Items.{header_in, finished_in};
ghost use Rattle.det_record_c.specs.Parts.{Written, call_state, Reports, IsSoundIn};

use crate::part::Part;
use crate::write_part::answer_part;
use c_types::{DetElement, DetEvent, DetProfile, DetRecord, DetRefusal, DetSample, DetTime};

/// Begins a record in format 1 or 2. False for any other number.
#[unsafe(no_mangle)]
pub extern "C" fn det_record_new(state: &mut DetRecord, format: u8) -> bool
    ensures takes { IsTrue result ↔ ((format ≡ 1) ⊎ (format ≡ 2)) }
    ensures begins { IsTrue result → Written state.new [] [] }
    ensures keeps_format { IsTrue result → state.new.format ≡ format }
    ensures refuses { result ≡ false → state.new ≡ state.old }
{
    if format != 1 && format != 2 {
        return false;
    }
    *state = DetRecord {
        cycles: 0,
        events: 0,
        format,
        stage: 0,
    };
    true
}

/// Writes the header. In format 1 each event has the policy 0.
#[unsafe(no_mangle)]
pub extern "C" fn det_record_header(
    state: &mut DetRecord,
    profile: &DetProfile,
    params: &[i64],
    events: &[DetEvent],
    out: &mut [u8],
    written: &mut usize,
) -> u8
    ensures { Reports result
        (header_in (format_of state.old.format) profile.now params.now events.now)
        (IsSoundIn (format_of state.old.format) profile.now params.now events.now)
        (call_state state.old out.old written.old) (call_state state.new out.new written.new) }
{
    let part = Part::Header {
        profile,
        params,
        events,
    };
    answer_part(state, &part, out, written)
}

/// Writes the Register frame.
#[unsafe(no_mangle)]
pub extern "C" fn det_record_register(
    state: &mut DetRecord,
    out: &mut [u8],
    written: &mut usize,
) -> u8
    ensures { Reports result (items.Frame frames.Register) (Unit {0})
        (call_state state.old out.old written.old) (call_state state.new out.new written.new) }
{
    answer_part(state, &Part::Register, out, written)
}

/// Writes the Discover frame, that of ServiceDiscovery.
#[unsafe(no_mangle)]
pub extern "C" fn det_record_discover(
    state: &mut DetRecord,
    out: &mut [u8],
    written: &mut usize,
) -> u8
    ensures { Reports result (items.Frame frames.Discover) (Unit {0})
        (call_state state.old out.old written.old) (call_state state.new out.new written.new) }
{
    answer_part(state, &Part::Discover, out, written)
}

/// Writes the Init frame with the initial elements. Their draws are ignored.
#[unsafe(no_mangle)]
pub extern "C" fn det_record_init(
    state: &mut DetRecord,
    elements: &[DetElement],
    out: &mut [u8],
    written: &mut usize,
) -> u8
    ensures { Reports result (init_of elements.now) (AreSoundElements elements.now)
        (call_state state.old out.old written.old) (call_state state.new out.new written.new) }
{
    answer_part(state, &Part::Init { elements }, out, written)
}

/// Writes the Run frame of a cycle that finished. In format 1 draws are ignored.
#[unsafe(no_mangle)]
pub extern "C" fn det_record_finished(
    state: &mut DetRecord,
    time: &DetTime,
    samples: &[DetSample],
    elements: &[DetElement],
    output: &[u8],
    out: &mut [u8],
    written: &mut usize,
) -> u8
    ensures { Reports result
        (finished_in (format_of state.old.format) time.now samples.now elements.now output.now)
        (IsSoundFinish state.old.events samples.now elements.now output.now)
        (call_state state.old out.old written.old) (call_state state.new out.new written.new) }
{
    let part = Part::Finished {
        time,
        samples,
        elements,
        output,
    };
    answer_part(state, &part, out, written)
}

/// Writes the Run frame of a cycle that was refused.
#[unsafe(no_mangle)]
pub extern "C" fn det_record_refused(
    state: &mut DetRecord,
    time: &DetTime,
    samples: &[DetSample],
    refusal: &DetRefusal,
    out: &mut [u8],
    written: &mut usize,
) -> u8
    ensures { Reports result (refused_of time.now samples.now refusal.now)
        (IsSoundRefusal state.old.events samples.now refusal.now)
        (call_state state.old out.old written.old) (call_state state.new out.new written.new) }
{
    let part = Part::Refused {
        time,
        samples,
        refusal,
    };
    answer_part(state, &part, out, written)
}

/// Writes the Terminate frame, the last one.
#[unsafe(no_mangle)]
pub extern "C" fn det_record_terminate(
    state: &mut DetRecord,
    out: &mut [u8],
    written: &mut usize,
) -> u8
    ensures { Reports result (items.Frame frames.Terminate) (Unit {0})
        (call_state state.old out.old written.old) (call_state state.new out.new written.new) }
{
    answer_part(state, &Part::Terminate, out, written)
}
