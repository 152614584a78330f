//! Runs in which each read, each write and each write of the line for the user fails in turn, or
//! all pieces are small.
use crate::files::file;
use crate::program_run::{Edges, NO_FAILURES, RunResult, row_of, run};
use crate::tables::broken_rows;
use std::alloc::{AllocError, Global};
use std::test::*;
use std::thread::Threads;

/// A run of each command that reads files. Each reads its files to their ends.
fn commands() -> &'static str {
    "\
demo s.two
record guard s.guard --workers 2
chain bank bank s.two
replay B
check B
upgrade B
compare B B
vote B B B
vote B B B --dissent
salvage B
salvage B --reports
show B
needs user
"
}

/// Each call moves few bytes.
const SMALL: Edges = Edges {
    most_read: 7,
    most_written: 10,
    room: 7000,
    ..NO_FAILURES
};

/// What fails or is small in the runs of a line.
#[derive(Clone, Copy)]
enum Trial {
    Reads,
    Writes,
    Pieces,
    /// The line for the user, in the broken runs.
    LineFails,
}

impl RunResult {
    /// Whether it ended as the whole run did.
    fn is_as(&self, whole: &RunResult) -> bool {
        self.status == whole.status
            && self.out.bytes() == whole.out.bytes()
            && self.err.bytes() == whole.err.bytes()
    }

    /// Whether it ended with this status and line, and wrote the first bytes of the whole run.
    fn broke_off_with(&self, whole: &RunResult, status: u8, line: &str) -> bool {
        self.status == status
            && self.err.bytes() == line.as_bytes()
            && whole.out.bytes().starts_with(self.out.bytes())
    }
}

/// How many calls of the shelf read a file to its end: one opens it, one reads each piece, and one
/// finds the end.
fn calls_for(bytes: &[u8]) -> u64 {
    let pieces = bytes.len().div_ceil(SMALL.most_read) as u64;
    pieces.saturating_add(2)
}

/// How many calls of the shelf read the files of a line to their ends.
fn calls_of(alloc: Global, line: &str) -> Result<u64, AllocError> {
    let mut calls: u64 = 0;
    for word in line.split(' ') {
        if let Some(bytes) = file(alloc, word)? {
            calls = calls.saturating_add(calls_for(&bytes));
        }
    }
    Ok(calls)
}

/// Whether a run in which this read fails breaks off if `is_to_break`, and is the whole run if not.
fn breaks_at_read<R: Threads + Sync>(
    rt: &R,
    alloc: Global,
    line: &str,
    whole: &RunResult,
    failing_read: u64,
    is_to_break: bool,
) -> Result<bool, AllocError> {
    let edges = Edges {
        failing_read,
        ..SMALL
    };
    let ran = run(rt, alloc, line, edges)?;
    let breaks = ran.broke_off_with(whole, 6, "read fault\n");
    Ok(breaks == is_to_break && breaks != ran.is_as(whole))
}

/// The same for each of its reads, and for the number after them, which fails nothing.
fn breaks_at_each_read<R: Threads + Sync>(
    rt: &R,
    alloc: Global,
    line: &str,
    whole: &RunResult,
) -> Result<bool, AllocError> {
    let reads = calls_of(alloc, line)?;
    let mut is_right = whole.status == 0;
    for read in 1..reads.saturating_add(2) {
        let breaks = breaks_at_read(rt, alloc, line, whole, read, read <= reads)?;
        is_right = is_right && breaks;
    }
    Ok(is_right)
}

/// Whether this number of writes can have taken the bytes, 1 to 10 each.
fn fits_writes(bytes: &[u8], writes: u64) -> bool {
    let len = bytes.len() as u64;
    writes <= len && len <= writes.saturating_mul(10)
}

/// Whether a run breaks off at the write after this number of writes, and whether it is the whole
/// run of this number of writes.
fn breaks_after<R: Threads + Sync>(
    rt: &R,
    alloc: Global,
    line: &str,
    whole: &RunResult,
    writes: u64,
) -> Result<(bool, bool), AllocError> {
    let edges = Edges {
        failing_write: writes.saturating_add(1),
        ..SMALL
    };
    let ran = run(rt, alloc, line, edges)?;
    let breaks = ran.broke_off_with(whole, 7, "write fault\n");
    let fits = fits_writes(ran.out.bytes(), writes);
    Ok((breaks && fits, ran.is_as(whole) && fits))
}

/// Whether runs break off after the writes before a failing one, at each write until one is the
/// whole run.
fn breaks_at_each_write<R: Threads + Sync>(
    rt: &R,
    alloc: Global,
    line: &str,
    whole: &RunResult,
) -> Result<bool, AllocError> {
    for writes in 0..9999u64 {
        let (breaks, is_whole) = breaks_after(rt, alloc, line, whole, writes)?;
        if !breaks {
            return Ok(is_whole);
        }
    }
    Ok(false)
}

/// Whether a run is the whole one if a read gives at most this number of bytes and a write takes
/// one.
fn is_same_at<R: Threads + Sync>(
    rt: &R,
    alloc: Global,
    line: &str,
    whole: &RunResult,
    most_read: usize,
) -> Result<bool, AllocError> {
    let edges = Edges {
        most_read,
        most_written: 1,
        ..SMALL
    };
    let ran = run(rt, alloc, line, edges)?;
    Ok(ran.is_as(whole))
}

/// The same for reads of 1, 2 and 7 bytes.
fn is_same_at_each<R: Threads + Sync>(
    rt: &R,
    alloc: Global,
    line: &str,
    whole: &RunResult,
) -> Result<bool, AllocError> {
    let mut is_right = whole.status == 0;
    for most_read in [1, 2, 7] {
        let is_same = is_same_at(rt, alloc, line, whole, most_read)?;
        is_right = is_right && is_same;
    }
    Ok(is_right)
}

/// The line for the user fails at its first write.
const LINE_FAILS: Edges = Edges {
    failing_line: 1,
    ..NO_FAILURES
};

/// The line for the user fails at its second write, after three bytes.
const LINE_FAILS_LATER: Edges = Edges {
    failing_line: 2,
    most_written: 3,
    ..NO_FAILURES
};

/// Whether a run of a row keeps its status over these edges, and writes the first `len` bytes of
/// its line.
fn keeps_status_over<R: Threads + Sync>(
    rt: &R,
    alloc: Global,
    row: &str,
    edges: Edges,
    len: usize,
) -> Result<bool, AllocError> {
    let (words, wanted) = row_of(row);
    let ran = run(rt, alloc, words, edges)?;
    let printed = ran.err.bytes();
    let is_front = printed.len() == len && wanted.err.as_bytes().starts_with(printed);
    Ok(is_front && ran.status == wanted.status)
}

/// Whether a run of a row keeps its status if the line for the user fails.
fn keeps_status<R: Threads + Sync>(rt: &R, alloc: Global, row: &str) -> Result<bool, AllocError> {
    let at_start = keeps_status_over(rt, alloc, row, LINE_FAILS, 0)?;
    let half_way = keeps_status_over(rt, alloc, row, LINE_FAILS_LATER, 3)?;
    Ok(at_start && half_way)
}

/// The lines of the runs of a trial.
fn lines_of(trial: Trial) -> &'static str {
    match trial {
        Trial::Reads | Trial::Writes | Trial::Pieces => commands(),
        Trial::LineFails => broken_rows(),
    }
}

fn passes<R: Threads + Sync>(
    rt: &R,
    alloc: Global,
    trial: Trial,
    line: &str,
) -> Result<bool, AllocError> {
    match trial {
        Trial::Reads => breaks_at_each_read(rt, alloc, line, &run(rt, alloc, line, SMALL)?),
        Trial::Writes => breaks_at_each_write(rt, alloc, line, &run(rt, alloc, line, SMALL)?),
        Trial::Pieces => is_same_at_each(rt, alloc, line, &run(rt, alloc, line, SMALL)?),
        Trial::LineFails => keeps_status(rt, alloc, line),
    }
}

/// The lines whose runs don't pass a trial.
fn failures<R: Threads + Sync>(rt: &R, alloc: Global, trial: Trial) -> Result<String, AllocError> {
    let mut failures = String::new(alloc);
    for line in lines_of(trial).lines() {
        if !passes(rt, alloc, trial, line)? {
            failures.push_str(line)?;
        }
    }
    Ok(failures)
}

#[test]
fn each_failing_read_is_a_read_fault(rt: HostRuntime) -> Result<(), Fail> {
    let failures = failures(&rt, rt.alloc(), Trial::Reads)?;
    assert!(rt; failures.is_empty(), "{failures}");
    Ok(())
}

#[test]
fn each_failing_write_is_a_write_fault(rt: HostRuntime) -> Result<(), Fail> {
    let failures = failures(&rt, rt.alloc(), Trial::Writes)?;
    assert!(rt; failures.is_empty(), "{failures}");
    Ok(())
}

#[test]
fn pieces_of_any_length_give_the_same(rt: HostRuntime) -> Result<(), Fail> {
    let failures = failures(&rt, rt.alloc(), Trial::Pieces)?;
    assert!(rt; failures.is_empty(), "{failures}");
    Ok(())
}

#[test]
fn an_output_without_room_is_a_write_fault(rt: HostRuntime) -> Result<(), Fail> {
    let edges = Edges {
        room: 50,
        ..NO_FAILURES
    };
    let ran = run(&rt, rt.alloc(), "demo s.none", edges)?;
    let whole = run(&rt, rt.alloc(), "demo s.none", NO_FAILURES)?;
    assert!(rt; ran.broke_off_with(&whole, 7, "write fault\n") && ran.out.bytes().len() == 50);
    Ok(())
}

#[test]
fn a_line_that_fails_changes_no_status(rt: HostRuntime) -> Result<(), Fail> {
    let failures = failures(&rt, rt.alloc(), Trial::LineFails)?;
    assert!(rt; failures.is_empty(), "{failures}");
    Ok(())
}
