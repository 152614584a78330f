//! A finished cycle that is written in several calls, without a list of its elements.
ghost use Rattle.std.specs.Prelude.{◌≡◌, ◌≤◌, ◌<◌, ◌↔◌, length, IsTrue};
ghost use Rattle.c_types.specs.CValues.{input_of};
ghost use Rattle.c_types.specs.Places.{format_of};
ghost use Rattle.record_grammar.specs.Spelling.{spelled_drawn};
ghost use Rattle.det_record_c.specs.Answers.{EndsAs};
ghost use Rattle.det_record_c.specs.Items.{element_in};
ghost use Rattle.det_record_c.specs.Parts.{call_state};
ghost use Rattle.det_record_c.specs.Runs.{TakesCycle, IsSoundOpening, opening_of, closing_of};
ghost use Rattle.det_record_c.specs.Runs.{run_state, IsOpened, IsElementPut, CanClose, IsClosed};
ghost use Rattle.det_record_c.specs.Runs.{AreElementsPut};

use crate::cause::Cause;
use crate::part::takes_cycle;
use crate::put::fits;
use crate::put_frame::{put_closing, put_drawn, put_opening};
use crate::ranges::{is_sound_opening, is_sound_output};
use c_types::{DetRecord, DetSample, DetTime, format_from_number};

/// How far a cycle is written: the record when the cycle was opened, and the number of elements
/// that are left to put.
#[repr(C)]
#[derive(Drop)]
pub struct DetRun {
    pub state: DetRecord,
    pub left: u32,
}

/// What a cycle is opened with.
#[derive(Clone, Copy)]
pub(crate) struct Opening<'c> {
    pub time: &'c DetTime,
    pub samples: &'c [DetSample],
    /// Of elements.
    pub count: u32,
}

fn copy_of(state: &DetRecord) -> DetRecord
    ensures { result ≡ state.now }
{
    DetRecord {
        cycles: state.cycles,
        events: state.events,
        format: state.format,
        stage: state.stage,
    }
}

fn are_same(left: &DetRecord, right: &DetRecord) -> bool
    ensures { IsTrue result ↔ (left.now ≡ right.now) }
{
    left.cycles == right.cycles
        && left.events == right.events
        && left.format == right.format
        && left.stage == right.stage
}

/// Opens a cycle.
pub(crate) fn open_cycle(
    run: &mut DetRun,
    state: &DetRecord,
    opening: &Opening<'_>,
    out: &mut [u8],
    written: &mut usize,
) -> Result<(), Cause>
    ensures { EndsAs result (TakesCycle state.now)
        (IsSoundOpening state.now.events opening.now.samples.now opening.now.count)
        (length (opening_of (input_of opening.now.time.now opening.now.samples.now)
        opening.now.count) ≤ length out.old)
        (IsOpened state.now (input_of opening.now.time.now opening.now.samples.now)
        opening.now.count (run_state run.old out.old written.old)
        (run_state run.new out.new written.new))
        (run_state run.new out.new written.new ≡ run_state run.old out.old written.old) }
{
    if !takes_cycle(state) {
        return Err(Cause::Misplaced);
    }
    if !is_sound_opening(state.events, opening.samples, opening.count) {
        return Err(Cause::OutOfRange);
    }
    let needed = put_opening(&mut [], opening.time, opening.samples, opening.count);
    if !fits(needed, out) {
        return Err(Cause::NoRoom);
    }
    *written = put_opening(out, opening.time, opening.samples, opening.count);
    *run = DetRun {
        state: copy_of(state),
        left: opening.count,
    };
    Ok(())
}

/// Puts the next element.
pub(crate) fn put_next(
    run: &mut DetRun,
    bytes: &[u8],
    draws: u32,
    out: &mut [u8],
    written: &mut usize,
) -> Result<(), Cause>
    ensures { EndsAs result (1 ≤ run.old.left) (length bytes.now ≤ 64)
        (length (spelled_drawn (format_of run.old.state.format)
        (element_in (format_of run.old.state.format) bytes.now draws)) ≤ length out.old)
        (IsElementPut (element_in (format_of run.old.state.format) bytes.now draws)
        (run_state run.old out.old written.old) (run_state run.new out.new written.new))
        (run_state run.new out.new written.new ≡ run_state run.old out.old written.old) }
{
    if run.left == 0 {
        return Err(Cause::Misplaced);
    }
    if bytes.len() > 64 {
        return Err(Cause::OutOfRange);
    }
    let kept = format_from_number(run.state.format);
    let needed = put_drawn(&mut [], 0, kept, bytes, draws);
    if !fits(needed, out) {
        return Err(Cause::NoRoom);
    }
    *written = put_drawn(out, 0, kept, bytes, draws);
    run.left -= 1;
    Ok(())
}

/// Passes over elements that C put itself.
pub(crate) fn pass_elements(run: &mut DetRun, count: u32) -> Result<(), Cause>
    ensures { EndsAs result (count ≤ run.old.left) (Unit {0}) (Unit {0})
        (AreElementsPut count run.old run.new) (run.new ≡ run.old) }
{
    if run.left < count {
        return Err(Cause::Misplaced);
    }
    run.left -= count;
    Ok(())
}

/// Whether a cycle can be closed in a record.
fn can_close(run: &DetRun, state: &DetRecord) -> bool
    ensures { IsTrue result ↔ CanClose run.now state.now }
{
    takes_cycle(state) && are_same(&run.state, state) && run.left == 0
}

/// Closes a cycle. Only now the record moves on.
pub(crate) fn close_cycle(
    run: &DetRun,
    state: &mut DetRecord,
    output: &[u8],
    out: &mut [u8],
    written: &mut usize,
) -> Result<(), Cause>
    ensures { EndsAs result (CanClose run.now state.old) (length output.now ≤ 1048576)
        (length (closing_of output.now) ≤ length out.old)
        (IsClosed run.now output.now (call_state state.old out.old written.old)
        (call_state state.new out.new written.new))
        (call_state state.new out.new written.new ≡ call_state state.old out.old written.old) }
{
    if !can_close(run, state) {
        return Err(Cause::Misplaced);
    }
    if !is_sound_output(output) {
        return Err(Cause::OutOfRange);
    }
    let needed = put_closing(&mut [], 0, output);
    if !fits(needed, out) {
        return Err(Cause::NoRoom);
    }
    *written = put_closing(out, 0, output);
    state.cycles += 1;
    Ok(())
}
