//! Whole runs of `det_twin` over a shelf and sinks in memory, on real threads.
use crate::program_run::{Edges, NO_FAILURES, RunResult, prepare, row_of};
use crate::tables::twin_rows;
use std::alloc::{AllocError, Global};
use std::sync::Wait;
use std::test::*;
use std::thread::Threads;
use twin_cli::twin_top;

fn run_twins<R: Threads + Wait + Sync>(
    rt: &R,
    alloc: Global,
    line: &str,
    edges: Edges,
) -> Result<RunResult, AllocError> {
    let mut ran = prepare(alloc, line, edges)?;
    let status = twin_top(
        rt,
        alloc,
        &ran.words,
        &mut ran.shelf,
        &mut ran.out,
        &mut ran.err,
    );
    ran.status = status.number();
    Ok(ran)
}

/// Whether a row ends as wanted.
fn is_right<R: Threads + Wait + Sync>(
    rt: &R,
    alloc: Global,
    row: &str,
) -> Result<bool, AllocError> {
    let (words, wanted) = row_of(row);
    let ran = run_twins(rt, alloc, words, NO_FAILURES)?;
    ran.ended_as(alloc, &wanted)
}

/// The rows that don't end as wanted.
fn wrong_rows<R: Threads + Wait + Sync>(rt: &R, alloc: Global) -> Result<String, AllocError> {
    let mut wrong = String::new(alloc);
    for row in twin_rows().lines() {
        if !is_right(rt, alloc, row)? {
            wrong.push_str(row)?;
        }
    }
    Ok(wrong)
}

#[test]
fn twins_end_as_their_rows_want(rt: HostRuntime) -> Result<(), Fail> {
    let wrong = wrong_rows(&rt, rt.alloc())?;
    assert!(rt; wrong.is_empty(), "{wrong}");
    Ok(())
}

/// Whether a run is a read fault if this call of the shelf fails.
fn is_read_fault<R: Threads + Wait + Sync>(
    rt: &R,
    alloc: Global,
    failing_read: u64,
) -> Result<bool, AllocError> {
    let edges = Edges {
        failing_read,
        ..NO_FAILURES
    };
    let ran = run_twins(rt, alloc, "2 bank s.two", edges)?;
    Ok(ran.status == 6 && ran.err.bytes() == b"read fault\n".as_slice())
}

/// How many of the first calls of the shelf make a run a read fault if they fail.
fn read_faults<R: Threads + Wait + Sync>(rt: &R, alloc: Global) -> Result<u32, AllocError> {
    let mut faults: u32 = 0;
    for failing_read in 1..9u64 {
        if is_read_fault(rt, alloc, failing_read)? {
            faults = faults.saturating_add(1);
        }
    }
    Ok(faults)
}

/// Two files are opened, and each is read twice.
#[test]
fn each_failing_call_of_the_shelf_is_a_read_fault(rt: HostRuntime) -> Result<(), Fail> {
    assert_eq!(rt; read_faults(&rt, rt.alloc())?, 6);
    Ok(())
}

#[test]
fn an_output_without_room_is_a_write_fault(rt: HostRuntime) -> Result<(), Fail> {
    let edges = Edges {
        room: 3,
        ..NO_FAILURES
    };
    let ran = run_twins(&rt, rt.alloc(), "2 bank s.two", edges)?;
    assert!(rt; ran.status == 7 && ran.out.bytes() == b"agr".as_slice());
    assert_eq!(rt; ran.err.bytes(), b"write fault\n".as_slice());
    Ok(())
}
