//! Each call, on a record that is spelled here by hand.
use crate::cell::PageCell;
use crate::export::{
    PageFault, page_compare, page_map, page_outputs, page_runs, page_text, page_values,
};
use crate::run_difference::PageDifference;
use crate::run_rows::PageRun;
use std::alloc::AllocError;

/// Job 1 in format 2, with one event. The elements begin as 07 08. Cycle 1 has the time 5, a sample
/// of -1, the element 09 08 with 3 draws, and the output aa. Cycle 2 is refused in the pool, in pass
/// 2 at element 0, with the code 77.
const RECORD: [u8; 106] = [
    0x44, 0x45, 0x54, 0x52, 0x45, 0x43, 0x00, 0x02, 0x00, 0x01, 0x00, 0x00, 0x00, 0x00, 0x00, 0x00,
    0x00, 0x00, 0x00, 0x00, 0x00, 0x00, 0x00, 0x98, 0x96, 0x80, 0x00, 0x00, 0x00, 0x01, 0x00, 0x02,
    0x01, 0x78, 0x00, 0x01, 0x02, 0x03, 0x00, 0x00, 0x00, 0x01, 0x00, 0x02, 0x07, 0x08, 0x04, 0x01,
    0x00, 0x00, 0x00, 0x00, 0x00, 0x00, 0x00, 0x05, 0x00, 0x00, 0x00, 0x01, 0x00, 0x00, 0xff, 0xff,
    0xff, 0xff, 0xff, 0xff, 0xff, 0xff, 0x00, 0x00, 0x00, 0x00, 0x01, 0x00, 0x02, 0x09, 0x08, 0x00,
    0x00, 0x00, 0x03, 0x00, 0x00, 0x00, 0x01, 0xaa, 0x04, 0x00, 0x00, 0x00, 0x00, 0x00, 0x01, 0x01,
    0x02, 0x00, 0x00, 0x00, 0x00, 0x00, 0x00, 0x00, 0x4d, 0x05,
];

/// Where the record has the 9 of cycle 1.
const NINE: usize = 77;

fn no_fault() -> PageFault {
    PageFault {
        offset: 0,
        copy: 0,
        reason: 0,
    }
}

fn no_run() -> PageRun {
    PageRun {
        time: 0,
        draws: 0,
        output: 0,
        known: 0,
        samples: 0,
        elements: 0,
        outcome: 0,
        pass: 0,
        element: 0,
        code: 0,
    }
}

fn no_cell() -> PageCell {
    PageCell {
        bytes: [0; 64],
        length: 0,
        draws: 0,
        present: 9,
    }
}

fn no_difference() -> PageDifference {
    PageDifference {
        time: 0,
        samples: 0,
        result: 0,
        output: 0,
        elements: 0,
        marks: [0; 64],
    }
}

#[test]
fn copies_are_compared(rt: HostRuntime) -> Result<(), AllocError> {
    let alloc = rt.alloc();
    let mut both = Vec::new(alloc);
    both.extend_from_slice(&RECORD)?;
    both.extend_from_slice(&RECORD)?;
    let mut line = [0; 64];
    let mut written = 0;
    let mut fault = no_fault();
    let lengths = [106, 106];
    let answer = page_compare(alloc, &both, &lengths, &mut line, &mut written, &mut fault);
    assert!(rt; answer == 0);
    assert!(rt; line.get(..written) == Some("agree 2\n".as_bytes()));
    if let Some(byte) = both.get_mut(106 + NINE) {
        *byte = 8;
    }
    let answer = page_compare(alloc, &both, &lengths, &mut line, &mut written, &mut fault);
    assert!(rt; answer == 1);
    assert!(rt; line.get(..written) == Some("differ copy 1 element 1 0\n".as_bytes()));
    let torn = [106, 105];
    let answer = page_compare(alloc, &both, &torn, &mut line, &mut written, &mut fault);
    assert!(rt; answer == 1);
    let answer = page_compare(alloc, &both, &[106], &mut line, &mut written, &mut fault);
    assert!(rt; answer == 3);
    let short = &mut line[..7];
    let answer = page_compare(alloc, &both, &lengths, short, &mut written, &mut fault);
    assert!(rt; answer == 4);
    Ok(())
}

#[test]
fn a_torn_copy_has_a_fault(rt: HostRuntime) -> Result<(), AllocError> {
    let alloc = rt.alloc();
    let mut both = Vec::new(alloc);
    both.extend_from_slice(&RECORD)?;
    both.extend_from_slice(&RECORD)?;
    let mut line = [0; 64];
    let mut written = 0;
    let mut fault = no_fault();
    let lengths = [106, 105];
    let answer = page_compare(alloc, &both, &lengths, &mut line, &mut written, &mut fault);
    assert!(rt; answer == 2);
    assert!(rt; fault.copy == 1 && fault.offset == 105 && fault.reason == 5);
    Ok(())
}

#[test]
fn a_cycle_is_printed(rt: HostRuntime) -> Result<(), AllocError> {
    let alloc = rt.alloc();
    let mut out = [0; 512];
    let mut written = 0;
    let mut fault = no_fault();
    let answer = page_text(alloc, &RECORD, 2, &mut out, &mut written, &mut fault);
    assert!(rt; answer == 0);
    assert!(rt; out.get(..written) == Some("run 2 time -\nrefused pool 2 0 77\n".as_bytes()));
    let mut short = [0; 32];
    let answer = page_text(alloc, &RECORD, 2, &mut short, &mut written, &mut fault);
    assert!(rt; answer == 4);
    Ok(())
}

#[test]
fn cycles_are_rows(rt: HostRuntime) -> Result<(), AllocError> {
    let mut rows = [no_run(), no_run(), no_run()];
    let mut count = 7;
    let mut fault = no_fault();
    let answer = page_runs(&RECORD, &mut rows, &mut count, &mut fault);
    assert!(rt; answer == 0 && count == 2);
    let [first, second, _] = rows;
    assert!(rt; first.time == 5 && first.known == 1 && first.samples == 1 && first.draws == 3);
    assert!(rt; first.elements == 1 && first.output == 1 && first.outcome == 0);
    assert!(rt; second.known == 0 && second.outcome == 2 && second.pass == 2 && second.code == 77);
    let answer = page_runs(&RECORD[..104], &mut [], &mut count, &mut fault);
    assert!(rt; answer == 2 && count == 1);
    assert!(rt; fault.offset == 104 && fault.reason == 5);
    Ok(())
}

#[test]
fn cells_hold_bytes(rt: HostRuntime) -> Result<(), AllocError> {
    let mut cells = [no_cell(), no_cell(), no_cell()];
    let mut fault = no_fault();
    let answer = page_values(&RECORD, 0, &mut cells, &mut fault);
    assert!(rt; answer == 0);
    let [first, second, third] = cells;
    assert!(rt; first.bytes.get(..3) == Some(&[9u8, 8, 0][..]));
    assert!(rt; first.length == 2 && first.draws == 3 && first.present == 1);
    assert!(rt; second.present == 0 && third.present == 9);
    let mut cells = [no_cell()];
    let answer = page_outputs(&RECORD, &mut cells, &mut fault);
    assert!(rt; answer == 0);
    let [cell] = cells;
    assert!(rt; cell.bytes.get(..2) == Some(&[0xaau8, 0][..]) && cell.length == 1);
    Ok(())
}

#[test]
fn differences_are_marked(rt: HostRuntime) -> Result<(), AllocError> {
    let mut other = RECORD;
    if let Some(byte) = other.get_mut(NINE) {
        *byte = 8;
    }
    let mut rows = [no_difference(), no_difference()];
    page_map(&RECORD, &other, 0, &mut rows);
    let [first, second] = rows;
    assert!(rt; first.elements == 1 && first.output == 0 && first.time == 0);
    assert!(rt; first.marks.get(..2) == Some(&[1u8, 0][..]));
    assert!(rt; second.elements == 0 && second.result == 0);
    Ok(())
}
