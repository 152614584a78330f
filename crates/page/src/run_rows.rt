//! The cycles of a record as rows of numbers.
ghost use Rattle.std.specs.Prelude.{◌≡◌, length};
ghost use Rattle.det_values.specs.declared.frames.RunFrame.{RunFrame};
ghost use Rattle.record_grammar.specs.Record.{fault as fault_in};
ghost use Rattle.page.specs.Walks.{IsRunOf, runs_of};
ghost use Rattle.page.specs.Rows.{overlay, row_of, all_draws};

use crate::record_walk::{LentOutcome, LentRun, RecordWalk};
use crate::row_table::put_row;
use det_values::Phase;
use record_grammar::RecordFault;
use record_view::ElementWalk;

/// A cycle. The outcome is 0 if it finished, and 1, 2 or 3 if it was refused in prepare, in the pool
/// or in conclude. The time is that of the cycle if `known` is 1.
#[repr(C)]
#[derive(Drop)]
pub struct PageRun {
    pub time: u64,
    /// How many random numbers its elements drew.
    pub draws: u64,
    /// How many bytes of output it has.
    pub output: u64,
    pub known: u32,
    pub samples: u32,
    pub elements: u32,
    pub outcome: u32,
    /// Where it was refused, and the code.
    pub pass: u32,
    pub element: u32,
    pub code: u32,
}

fn phase_number(phase: Phase) -> u32
    ensures { result ≡ Rattle.page.specs.Rows.phase_number phase }
{
    match phase {
        Phase::Prepare => 1,
        Phase::Pool => 2,
        Phase::Conclude => 3,
    }
}

fn time_or_0(time: Option<u64>) -> u64
    ensures { result ≡ Rattle.page.specs.Rows.time_or_0 time }
{
    match time {
        Some(time) => time,
        None => 0,
    }
}

fn is_known(time: Option<u64>) -> u32
    ensures { result ≡ Rattle.page.specs.Rows.is_known time }
{
    match time {
        Some(_) => 1,
        None => 0,
    }
}

/// The draws of all elements, of which there are `count`.
fn sum_draws(count: u32, elements: ElementWalk<'_>) -> u64
    requires { length elements ≡ count }
    ensures { result ≡ all_draws elements.entry }
{
    let mut elements = elements;
    let mut sum = 0u64;
    'elements: for _ in 0..count {
        let Some((_, draws)) = elements.next() else {
            return sum;
        };
        sum += draws as u64;
    }
    sum
}

/// The row of a cycle.
fn run_row(run: LentRun<'_>) -> PageRun
    requires { (frame : RunFrame) × IsRunOf run frame }
    ensures { (frame : RunFrame) → IsRunOf run.entry frame → result ≡ row_of frame }
{
    let samples = run.input.samples;
    let time = time_or_0(run.input.time);
    let known = is_known(run.input.time);
    match run.outcome() {
        LentOutcome::Finished {
            count,
            elements,
            output,
        } => PageRun {
            time,
            draws: sum_draws(count, elements),
            output: output.len() as u64,
            known,
            samples,
            elements: count,
            outcome: 0,
            pass: 0,
            element: 0,
            code: 0,
        },
        LentOutcome::Refused(at) => PageRun {
            time,
            draws: 0,
            output: 0,
            known,
            samples,
            elements: 0,
            outcome: phase_number(at.phase),
            pass: at.pass as u32,
            element: at.element,
            code: at.code,
        },
    }
}

/// Puts the rows of as many cycles as there is room for, and counts all cycles. Returns the fault
/// of the record, if it has one.
pub(crate) fn put_runs(bytes: &[u8], rows: &mut [PageRun], count: &mut usize) -> Option<RecordFault>
    ensures fault { result ≡ fault_in bytes.now }
    ensures rows { rows.new ≡ overlay (Rattle.page.specs.Rows.rows_of bytes.now) rows.old }
    ensures count { count.new ≡ length (runs_of bytes.now) }
{
    let mut walk = RecordWalk::new(bytes);
    *count = 0;
    'runs: loop {
        let Some(run) = walk.next_run() else {
            return walk.fault(bytes.len());
        };
        put_row(run_row(run), rows, *count);
        *count += 1;
    }
}
