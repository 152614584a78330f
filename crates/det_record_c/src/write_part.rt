//! Writes a part where C says.
ghost use Rattle.std.specs.Prelude.{◌≡◌};
ghost use Rattle.record_grammar.specs.Places.{CanFollow};
ghost use Rattle.c_types.specs.Places.{place_of};
ghost use Rattle.det_record_c.specs.Answers.{IsChecked, IsWritten, EndsAs};
ghost use Rattle.det_record_c.specs.Parts.{call_state, item_in, IsSound, spelling_in, HasFields};
ghost use Rattle.det_record_c.specs.Parts.{Fits, IsAdded, Reports};
ghost use Rattle.det_record_c.specs.Puts.{Puts};

use crate::cause::{Cause, answer};
use crate::part::{Part, step, takes};
use crate::put::{fits, put_u8};
use crate::put_frame::{put_finished, put_init, put_refused};
use crate::put_header::put_header;
use crate::ranges::is_sound;
use c_types::{DetRecord, format_from_number};

/// The place is checked first, and then the values.
fn check(state: &DetRecord, part: &Part<'_>) -> Result<(), Cause>
    ensures { IsChecked result (CanFollow (place_of state.now) (item_in state.now part.now))
        (IsSound state.now part.now) }
{
    if !takes(state, part) {
        return Err(Cause::Misplaced);
    }
    if !is_sound(state, part) {
        return Err(Cause::OutOfRange);
    }
    Ok(())
}

/// Puts the bytes of a part at the front of the room, and returns their number. If they don't fit,
/// only some of them are put.
#[tactic(auto, unfolding(record_grammar::specs::Spelling::spelled_frame, record_grammar::specs::Spelling::IsFrame))]
fn put_part(out: &mut [u8], state: &DetRecord, part: &Part<'_>) -> usize
    requires { IsSound state.now part.now }
    ensures puts { Puts 0 (spelling_in state.now (item_in state.now part.now)) out.old result
        out.new }
    ensures fields { HasFields state.now (item_in state.now part.now) }
{
    let kept = format_from_number(state.format);
    match *part {
        Part::Header {
            profile,
            params,
            events,
        } => put_header(out, kept, profile, params, events),
        Part::Register => put_u8(out, 0, 1),
        Part::Discover => put_u8(out, 0, 2),
        Part::Init { elements } => put_init(out, elements),
        Part::Finished {
            time,
            samples,
            elements,
            output,
        } => put_finished(out, kept, time, samples, elements, output),
        Part::Refused {
            time,
            samples,
            refusal,
        } => put_refused(out, time, samples, refusal),
        Part::Terminate => put_u8(out, 0, 5),
    }
}

/// Writes a part. Its bytes are counted first, in no room.
fn write_checked(
    state: &mut DetRecord,
    part: &Part<'_>,
    out: &mut [u8],
    written: &mut usize,
) -> Result<(), Cause>
    requires follows { CanFollow (place_of state.old) (item_in state.old part.now) }
    requires sound { IsSound state.old part.now }
    ensures { IsWritten result (Fits state.old (item_in state.old part.now) out.old)
        (IsAdded (item_in state.old part.now) (call_state state.old out.old written.old)
        (call_state state.new out.new written.new))
        (call_state state.new out.new written.new ≡ call_state state.old out.old written.old) }
{
    let count = put_part(&mut [], state, part);
    if !fits(count, out) {
        return Err(Cause::NoRoom);
    }
    *written = put_part(out, state, part);
    step(state, part);
    Ok(())
}

fn write_part(
    state: &mut DetRecord,
    part: &Part<'_>,
    out: &mut [u8],
    written: &mut usize,
) -> Result<(), Cause>
    ensures { EndsAs result (CanFollow (place_of state.old) (item_in state.old part.now))
        (IsSound state.old part.now) (Fits state.old (item_in state.old part.now) out.old)
        (IsAdded (item_in state.old part.now) (call_state state.old out.old written.old)
        (call_state state.new out.new written.new))
        (call_state state.new out.new written.new ≡ call_state state.old out.old written.old) }
{
    check(state, part)?;
    write_checked(state, part, out, written)
}

/// The answer for a part: it is written, or nothing is changed.
pub(crate) fn answer_part(
    state: &mut DetRecord,
    part: &Part<'_>,
    out: &mut [u8],
    written: &mut usize,
) -> u8
    ensures { Reports result (item_in state.old part.now) (IsSound state.old part.now)
        (call_state state.old out.old written.old) (call_state state.new out.new written.new) }
{
    answer(write_part(state, part, out, written))
}
