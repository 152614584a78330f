//! The exports that write a finished cycle in several calls: it is opened, its elements are put one
//! by one or by C itself, and it is closed. The bytes of all these calls, in order, are the frame that
//! `det_record_finished` writes of the same values. Answers are those of the other exports.
ghost use Rattle.std.specs.Prelude.{◌≡◌, ◌≤◌, length};
ghost use Rattle.record_grammar.specs.Spelling.{spelled_drawn};
ghost use Rattle.c_types.specs.CValues.{input_of};
ghost use Rattle.c_types.specs.Places.{format_of};
ghost use Rattle.det_record_c.specs.Answers.{ReportsCall};
ghost use Rattle.det_record_c.specs.Items.{element_in};
ghost use Rattle.det_record_c.specs.Parts.{call_state};
ghost use Rattle.det_record_c.specs.Runs.{TakesCycle, IsSoundOpening, opening_of, closing_of};
ghost use Rattle.det_record_c.specs.Runs.{run_state, IsOpened, IsElementPut, CanClose, IsClosed};
ghost use Rattle.det_record_c.specs.Runs.{AreElementsPut};

use crate::cause::answer;
use crate::run::{DetRun, Opening, close_cycle, open_cycle, pass_elements, put_next};
use c_types::{DetRecord, DetSample, DetTime};

/// Opens a cycle that finished with this number of elements. The record stays where it is.
#[unsafe(no_mangle)]
pub extern "C" fn det_run_open(
    run: &mut DetRun,
    state: &DetRecord,
    time: &DetTime,
    samples: &[DetSample],
    element_count: u32,
    out: &mut [u8],
    written: &mut usize,
) -> u8
    ensures { ReportsCall result (TakesCycle state.now)
        (IsSoundOpening state.now.events samples.now element_count)
        (length (opening_of (input_of time.now samples.now) element_count) ≤ length out.old)
        (IsOpened state.now (input_of time.now samples.now) element_count
        (run_state run.old out.old written.old) (run_state run.new out.new written.new))
        (run_state run.new out.new written.new ≡ run_state run.old out.old written.old) }
{
    let opening = Opening {
        time,
        samples,
        count: element_count,
    };
    answer(open_cycle(run, state, &opening, out, written))
}

/// Puts the next element of a cycle that was opened. If all are put, it is misplaced.
#[unsafe(no_mangle)]
pub extern "C" fn det_run_element(
    run: &mut DetRun,
    bytes: &[u8],
    draws: u32,
    out: &mut [u8],
    written: &mut usize,
) -> u8
    ensures { ReportsCall result (1 ≤ run.old.left) (length bytes.now ≤ 64)
        (length (spelled_drawn (format_of run.old.state.format)
        (element_in (format_of run.old.state.format) bytes.now draws)) ≤ length out.old)
        (IsElementPut (element_in (format_of run.old.state.format) bytes.now draws)
        (run_state run.old out.old written.old) (run_state run.new out.new written.new))
        (run_state run.new out.new written.new ≡ run_state run.old out.old written.old) }
{
    answer(put_next(run, bytes, draws, out, written))
}

/// Passes over the next `count` elements of a cycle, which C put itself, after what was written
/// before. It is misplaced if fewer are left to put. Whether bytes are the spelling of so many
/// elements is what `det_are_elements` says.
#[unsafe(no_mangle)]
pub extern "C" fn det_run_elements(run: &mut DetRun, count: u32) -> u8
    ensures { ReportsCall result (count ≤ run.old.left) (Unit {0}) (Unit {0})
        (AreElementsPut count run.old run.new) (run.new ≡ run.old) }
{
    answer(pass_elements(run, count))
}

/// Closes a cycle, and moves the record to the place after it. It is misplaced if an element is
/// left out, or if the record has moved since the cycle was opened.
#[unsafe(no_mangle)]
pub extern "C" fn det_run_close(
    run: &DetRun,
    state: &mut DetRecord,
    output: &[u8],
    out: &mut [u8],
    written: &mut usize,
) -> u8
    ensures { ReportsCall result (CanClose run.now state.old) (length output.now ≤ 1048576)
        (length (closing_of output.now) ≤ length out.old)
        (IsClosed run.now output.now (call_state state.old out.old written.old)
        (call_state state.new out.new written.new))
        (call_state state.new out.new written.new ≡ call_state state.old out.old written.old) }
{
    answer(close_cycle(run, state, output, out, written))
}
