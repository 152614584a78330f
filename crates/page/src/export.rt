//! What a page calls. Whatever it passes, a call returns, and touches no bytes but those that it was
//! given. Records that are compared lie one after another.
ghost use Rattle.std.specs.Prelude.{◌≡◌, ◌<◌, ◌++◌, ◌⊎◌, ◌↔◌, Ok, Err, Some, None, length, drop};
ghost use Rattle.std.specs.Prelude.{max};
ghost use Rattle.det_io.specs.declared.failure.Failure.TheVariants.{Write};
ghost use Rattle.record_grammar.specs.declared.record_fault.RecordFault.{RecordFault};
ghost use Rattle.record_grammar.specs.Record.{fault as fault_in};
ghost use Rattle.cmd_records.specs.record_show.Text.{text_of};
ghost use Rattle.copies.specs.declared.verdict.Verdict.{Verdict};
ghost use Rattle.copies.specs.declared.verdict.BadCopy.{BadCopy};
ghost use Rattle.copies.specs.Verdict.{verdict};
ghost use Rattle.copies.specs.verdict_text.Verdicts.{verdict_line};
ghost use Rattle.page.specs.declared.cell.Part.TheVariants.{Element, Output};
ghost use Rattle.page.specs.Shelves.{records_in};
ghost use Rattle.page.specs.Answers.{verdict_number, IsBadCount, fault_of, IsFaultAnswer};
ghost use Rattle.page.specs.Answers.{nobody, form_of};
ghost use Rattle.page.specs.Walks.{runs_of};
ghost use Rattle.page.specs.Rows.{overlay, rows_of};
ghost use Rattle.page.specs.Cells.{cells_of};
ghost use Rattle.page.specs.Differences.{differences_of};

use crate::cell::{PageCell, Part, put_cells};
use crate::copy_comparison::compare_copies;
use crate::lent_bytes::give_bytes;
use crate::record_print::{form_of, print_record};
use crate::run_difference::{PageDifference, put_differences};
use crate::run_rows::{PageRun, put_runs};
use copies::Verdict;
use copies::verdict_text::verdict_line;
use det_io::{FailList, Failure, MemSink, Stopped};
use record_grammar::{Reason, RecordFault};
use std::alloc::Global;

const WHOLE: u8 = 0;

const FAULT: u8 = 2;

const BAD_COUNT: u8 = 3;

const NO_ROOM: u8 = 4;

const OUT_OF_MEMORY: u8 = 5;

/// The fault of a copy, counted from 0. The reason is 0 for magic, 1 for version, 2 for range, 3 for
/// order, 4 for too many, 5 for truncated, 6 for trailing.
#[repr(C)]
#[derive(Drop)]
pub struct PageFault {
    pub offset: u64,
    pub copy: u32,
    pub reason: u32,
}

fn reason_number(reason: Reason) -> u32
    ensures { result ≡ Rattle.page.specs.Answers.reason_number reason }
{
    match reason {
        Reason::Magic => 0,
        Reason::Version => 1,
        Reason::Range => 2,
        Reason::Order => 3,
        Reason::TooMany => 4,
        Reason::Truncated => 5,
        Reason::Trailing => 6,
    }
}

fn fault_of(copy: u32, fault: RecordFault) -> PageFault
    ensures { result ≡ fault_of copy fault }
{
    PageFault {
        offset: fault.offset,
        copy,
        reason: reason_number(fault.reason),
    }
}

fn verdict_number(verdict: &Verdict) -> u8
    ensures { result ≡ verdict_number verdict.now }
{
    match verdict {
        Verdict::Agree { .. } => 0,
        Verdict::Differ { .. } => 1,
    }
}

/// Compares records of these lengths. The answer is 0 if they agree, and 1 if they differ; then the
/// first `written` bytes of `line` are the line of `det compare`. It is 2 if a copy has a fault, 3
/// for fewer than 2 or more than 8 copies, 4 if `line` is too short, 5 if there is no memory.
#[unsafe(no_mangle)]
pub extern "C" fn page_compare(
    alloc: Global,
    bytes: &[u8],
    lengths: &[usize],
    line: &mut [u8],
    written: &mut usize,
    fault: &mut PageFault,
) -> u8
    ensures verdict { result < 2 → (found : Verdict)
        × (verdict (records_in bytes.now lengths.now) ≡ Ok found) × (result ≡ verdict_number found)
        × (written.new ≡ length (verdict_line found))
        × (line.new ≡ verdict_line found ++ drop (length (verdict_line found)) line.old) }
    ensures bad { result ≡ 2 → (bad : BadCopy)
        × (verdict (records_in bytes.now lengths.now) ≡ Err bad)
        × (fault.new ≡ fault_of bad.copy bad.fault) }
    ensures count { (result ≡ 3) ↔ IsBadCount lengths.now }
    ensures room { result ≡ 4 → (found : Verdict)
        × (verdict (records_in bytes.now lengths.now) ≡ Ok found)
        × (length line.old < length (verdict_line found)) }
    ensures answers { result < 6 }
{
    if lengths.len() < 2 || 8 < lengths.len() {
        return BAD_COUNT;
    }
    let verdict = match compare_copies(alloc, bytes, lengths) {
        Ok(verdict) => verdict,
        Err(Stopped::Refused(bad)) => {
            *fault = fault_of(bad.copy, bad.fault);
            return FAULT;
        }
        Err(Stopped::Failed(_)) => return OUT_OF_MEMORY,
    };
    let Ok(text) = verdict_line(alloc, &verdict) else {
        return OUT_OF_MEMORY;
    };
    if !give_bytes(&text, line, written) {
        return NO_ROOM;
    }
    verdict_number(&verdict)
}

/// The answer if printing failed after this many bytes. A sink in memory refuses bytes only once it
/// is full.
fn failure_answer(failure: Failure, printed: usize, room: usize) -> u8
    ensures room { result ≡ 4 → (failure ≡ Write) × (printed ≡ room) }
    ensures answers { (result ≡ 4) ⊎ (result ≡ 5) }
{
    match failure {
        Failure::Write if printed == room => NO_ROOM,
        _ => OUT_OF_MEMORY,
    }
}

/// The text of a record as `det show` prints it, without reports; if `cycle` isn't 0, only that of
/// this cycle. The answer is 0 for a whole record and 2 for one with a fault; then the first
/// `written` bytes of `out` are the text of all that comes before the fault. It is 4 if `out` is
/// too short, 5 if there is no memory.
#[unsafe(no_mangle)]
pub extern "C" fn page_text(
    alloc: Global,
    bytes: &[u8],
    cycle: u32,
    out: &mut [u8],
    written: &mut usize,
    fault: &mut PageFault,
) -> u8
    ensures whole { result ≡ 0 → (fault_in bytes.now ≡ None)
        × (written.new ≡ length (text_of (form_of cycle) nobody bytes.now))
        × (out.new ≡ text_of (form_of cycle) nobody bytes.now
        ++ drop (length (text_of (form_of cycle) nobody bytes.now)) out.old) }
    ensures bad { result ≡ 2 → (found : RecordFault) × (fault_in bytes.now ≡ Some found)
        × (fault.new ≡ fault_of 0 found)
        × (written.new ≡ length (text_of (form_of cycle) nobody bytes.now))
        × (out.new ≡ text_of (form_of cycle) nobody bytes.now
        ++ drop (length (text_of (form_of cycle) nobody bytes.now)) out.old) }
    ensures room { result ≡ 4
        → length out.old < length (text_of (form_of cycle) nobody bytes.now) }
    ensures answers { (result ≡ 0) ⊎ ((result ≡ 2) ⊎ ((result ≡ 4) ⊎ (result ≡ 5))) }
{
    let Ok(mut sink) = MemSink::new(alloc, out.len(), usize::MAX, FailList::new(alloc)) else {
        return OUT_OF_MEMORY;
    };
    match print_record(alloc, bytes, form_of(cycle), &mut sink) {
        Ok(_) => {
            if !give_bytes(sink.bytes(), out, written) {
                return NO_ROOM;
            }
            WHOLE
        }
        Err(Stopped::Refused(found)) => {
            if !give_bytes(sink.bytes(), out, written) {
                return NO_ROOM;
            }
            *fault = fault_of(0, found);
            FAULT
        }
        Err(Stopped::Failed(failure)) => failure_answer(failure, sink.bytes().len(), out.len()),
    }
}

/// Gives the fault of a record out, if it has one.
fn give_fault(found: Option<RecordFault>, fault: &mut PageFault) -> u8
    ensures { IsFaultAnswer result found fault.old fault.new }
{
    match found {
        Some(found) => {
            *fault = fault_of(0, found);
            FAULT
        }
        None => WHOLE,
    }
}

/// The cycles of a record, each as a row, as far as there is room; `count` is the number of all. The
/// answer is 0 for a whole record, and 2 for one with a fault; then the cycles are those before it.
#[unsafe(no_mangle)]
pub extern "C" fn page_runs(
    bytes: &[u8],
    rows: &mut [PageRun],
    count: &mut usize,
    fault: &mut PageFault,
) -> u8
    ensures fault { IsFaultAnswer result (fault_in bytes.now) fault.old fault.new }
    ensures rows { rows.new ≡ overlay (rows_of bytes.now) rows.old }
    ensures count { count.new ≡ length (runs_of bytes.now) }
{
    give_fault(put_runs(bytes, rows, count), fault)
}

/// The element of this number after each cycle, as far as there is room. The answer is that of
/// `page_runs`.
#[unsafe(no_mangle)]
pub extern "C" fn page_values(
    bytes: &[u8],
    element: u32,
    cells: &mut [PageCell],
    fault: &mut PageFault,
) -> u8
    ensures fault { IsFaultAnswer result (fault_in bytes.now) fault.old fault.new }
    ensures cells { cells.new ≡ overlay (cells_of (Element element) bytes.now) cells.old }
{
    give_fault(put_cells(Part::Element(element), bytes, cells), fault)
}

/// The output of each cycle, as far as there is room. The answer is that of `page_runs`.
#[unsafe(no_mangle)]
pub extern "C" fn page_outputs(bytes: &[u8], cells: &mut [PageCell], fault: &mut PageFault) -> u8
    ensures fault { IsFaultAnswer result (fault_in bytes.now) fault.old fault.new }
    ensures cells { cells.new ≡ overlay (cells_of Output bytes.now) cells.old }
{
    give_fault(put_cells(Part::Output, bytes, cells), fault)
}

/// In which parts the cycles of two records differ, as far as both have cycles and there is room. A
/// mark is for `per_mark` elements; 0 counts as 1.
#[unsafe(no_mangle)]
pub extern "C" fn page_map(first: &[u8], other: &[u8], per_mark: u32, rows: &mut [PageDifference])
    ensures { rows.new ≡ overlay (differences_of (max per_mark 1) first.now other.now) rows.old }
{
    put_differences(per_mark.max(1), first, other, rows);
}
