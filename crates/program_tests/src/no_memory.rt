//! Running out of memory, which a shelf reports in place of a slot.
use crate::program_run::{fail_list, words_of};
use det_cli::{Host, top};
use det_io::{Failure, MemSink, Shelf, ShelfFailed, Slots};
use probes::Audience;
use std::alloc::{AllocError, Global};
use std::sync::Arc;
use std::test::*;
use std::thread::Threads;
use worker_pool::{AnyGate, NoGate};

/// A shelf that runs out of memory when a name is opened. Its only slot is at its end.
#[derive(Drop)]
struct NoRoom;

impl Slots for NoRoom {
    ghost use Rattle.std.specs.Prelude.{◌≡◌, ◌<◌, ◌≤◌, length, IfOk, OnErr};
    ghost use Rattle.det_io.specs.Count.{Rose};
    ghost use Rattle.det_io.specs.Shelf.{Reads, moved, IsAtEnd};
    ghost use Rattle.program_tests.specs.NoRoom.{unknown_slot};

    ghost sees = { λ _. unknown_slot };

    ghost stays = { λ _ _. Unit {0} };

    ghost stays_same = { λ _. tt };

    ghost stays_on = { λ _ _ _ _ _. tt };

    fn read(&mut self, _: u32, _: &mut [u8]) -> Result<usize, ShelfFailed> {
        Ok(0)
    }
}

impl Shelf for NoRoom {
    fn open_input(&mut self, _: &str) -> Result<u32, Failure> {
        Err(Failure::OutOfMemory)
    }
}

/// A sink that takes at most three bytes in a write. Its write of this number fails; 0 fails none.
fn sink_of(alloc: Global, failing: u64) -> Result<MemSink, AllocError> {
    let fails = fail_list(alloc, failing)?;
    MemSink::new(alloc, 100, 3, fails).map_err(|_| AllocError)
}

/// The status of `show` over such a shelf.
fn show<R: Threads + Sync>(
    rt: &R,
    alloc: Global,
    out: &mut MemSink,
    err: &mut MemSink,
) -> Result<u8, AllocError> {
    let words = words_of(alloc, "show m")?;
    let gate = Arc::new(alloc, AnyGate::new(Box::new(alloc, NoGate)?))?;
    let host = Host {
        rt,
        alloc,
        gate: &gate,
    };
    let mut audience = Audience::new(alloc, Vec::new(alloc));
    let status = top(&host, &words, &mut NoRoom, out, err, &mut audience);
    Ok(status.number())
}

/// Whether `show` ends with "out of memory" and writes `printed` to the user, if this write of its
/// line fails.
fn is_printed<R: Threads + Sync>(
    rt: &R,
    alloc: Global,
    failing_line: u64,
    printed: &[u8],
) -> Result<bool, AllocError> {
    let mut out = sink_of(alloc, 0)?;
    let mut err = sink_of(alloc, failing_line)?;
    let status = show(rt, alloc, &mut out, &mut err)?;
    Ok(status == 8 && err.bytes() == printed)
}

#[test]
fn out_of_memory_is_reported_where_its_line_can_be_written(rt: HostRuntime) -> Result<(), Fail> {
    let alloc = rt.alloc();
    let whole = is_printed(&rt, alloc, 0, b"out of memory\n")?;
    let none = is_printed(&rt, alloc, 1, b"")?;
    let front = is_printed(&rt, alloc, 2, b"out")?;
    assert!(rt; whole && none && front);
    Ok(())
}
