//! Runs of `det` that write and end as the rows of the tables say.
use crate::program_run::{NO_FAILURES, row_of, run};
use crate::tables::{broken_rows, large_rows, whole_rows};
use std::alloc::{AllocError, Global};
use std::test::*;
use std::thread::Threads;

/// Whether a row ends as wanted.
fn is_right<R: Threads + Sync>(rt: &R, alloc: Global, row: &str) -> Result<bool, AllocError> {
    let (words, wanted) = row_of(row);
    let ran = run(rt, alloc, words, NO_FAILURES)?;
    ran.ended_as(alloc, &wanted)
}

/// The rows of a table that don't end as wanted.
fn wrong_rows<R: Threads + Sync>(rt: &R, alloc: Global, table: &str) -> Result<String, AllocError> {
    let mut wrong = String::new(alloc);
    for row in table.lines() {
        if !is_right(rt, alloc, row)? {
            wrong.push_str(row)?;
        }
    }
    Ok(wrong)
}

#[test]
fn whole_runs_write_what_their_rows_want(rt: HostRuntime) -> Result<(), Fail> {
    let wrong = wrong_rows(&rt, rt.alloc(), whole_rows())?;
    assert!(rt; wrong.is_empty(), "{wrong}");
    Ok(())
}

#[test]
fn large_runs_write_what_their_rows_want(rt: HostRuntime) -> Result<(), Fail> {
    let wrong = wrong_rows(&rt, rt.alloc(), large_rows())?;
    assert!(rt; wrong.is_empty(), "{wrong}");
    Ok(())
}

#[test]
fn broken_runs_end_with_their_lines(rt: HostRuntime) -> Result<(), Fail> {
    let wrong = wrong_rows(&rt, rt.alloc(), broken_rows())?;
    assert!(rt; wrong.is_empty(), "{wrong}");
    Ok(())
}

/// Whether a run of these arguments ends with this line and the status of a bad record.
fn is_printed<R: Threads + Sync>(
    rt: &R,
    alloc: Global,
    words: &str,
    line: &str,
) -> Result<bool, AllocError> {
    let ran = run(rt, alloc, words, NO_FAILURES)?;
    Ok(ran.status == 5 && ran.err.bytes() == line.as_bytes())
}

/// Whether `show` reports that a record cut to this length is truncated there.
fn is_truncated<R: Threads + Sync>(rt: &R, alloc: Global, len: u32) -> Result<bool, AllocError> {
    let words = format!(in alloc; "show B:{len}")?;
    let line = format!(in alloc; "bad record: copy 0 offset {len} truncated\n")?;
    is_printed(rt, alloc, words.as_str(), line.as_str())
}

/// A length to which a record was cut and `show` reported otherwise, if there is one.
fn wrong_cut<R: Threads + Sync>(rt: &R, alloc: Global) -> Result<Option<u32>, AllocError> {
    let mut other = None;
    for len in 0..282u32 {
        if !is_truncated(rt, alloc, len)? {
            other = Some(len);
        }
    }
    Ok(other)
}

#[test]
fn a_record_cut_anywhere_is_truncated(rt: HostRuntime) -> Result<(), Fail> {
    assert_eq!(rt; wrong_cut(&rt, rt.alloc())?, None);
    Ok(())
}
