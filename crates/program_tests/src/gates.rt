//! Whole runs whose workers pass a gate. One gate holds two workers until each has seen the other
//! come, one counts three workers.
use crate::program_run::{NO_FAILURES, RunResult, are_as_wanted, run_with};
use probes::Audience;
use std::alloc::{AllocError, Global};
use std::sync::Arc;
use std::sync::atomic::{AtomicBool, Ordering};
use std::test::*;
use std::thread::Threads;
use worker_pool::{AnyGate, Gate, MeetGate};

/// Notes whether the workers 0, 1 and 2 have come, and whether another one has. It holds none of
/// them, since the number of a crew's threads depends on the machine.
#[derive(Drop)]
struct ThreeGate {
    first: AtomicBool,
    second: AtomicBool,
    third: AtomicBool,
    further: AtomicBool,
}

impl ThreeGate {
    fn new() -> ThreeGate {
        ThreeGate {
            first: AtomicBool::new(false),
            second: AtomicBool::new(false),
            third: AtomicBool::new(false),
            further: AtomicBool::new(false),
        }
    }

    /// Whether exactly the three came.
    fn three_came(&self) -> bool {
        self.first.load(Ordering::SeqCst)
            && self.second.load(Ordering::SeqCst)
            && self.third.load(Ordering::SeqCst)
            && !self.further.load(Ordering::SeqCst)
    }
}

impl Gate for ThreeGate {
    fn enter(&self, worker: u32) {
        match worker {
            0 => self.first.store(true, Ordering::SeqCst),
            1 => self.second.store(true, Ordering::SeqCst),
            2 => self.third.store(true, Ordering::SeqCst),
            _ => self.further.store(true, Ordering::SeqCst),
        }
    }
}

/// A run whose workers pass a gate, without probes.
fn run_through<R: Threads + Sync>(
    rt: &R,
    alloc: Global,
    line: &str,
    gate: Box<dyn Gate + Send + Sync>,
) -> Result<RunResult, AllocError> {
    let gate = Arc::new(alloc, AnyGate::new(gate))?;
    let mut audience = Audience::new(alloc, Vec::new(alloc));
    run_with(rt, alloc, line, NO_FAILURES, &mut audience, &gate)
}

#[test]
fn two_workers_of_a_record_meet(rt: HostRuntime) -> Result<(), Fail> {
    let gate = Arc::new(rt.alloc(), MeetGate::new())?;
    let watched = Box::new(rt.alloc(), Arc::try_clone(&gate)?)?;
    let ran = run_through(&rt, rt.alloc(), "record guard s.guard --workers 2", watched)?;
    let is_record = are_as_wanted(rt.alloc(), ran.out.bytes(), "=G2")?;
    assert!(rt; gate.met() && is_record);
    Ok(())
}

#[test]
fn two_workers_of_a_simulated_run_meet(rt: HostRuntime) -> Result<(), Fail> {
    let gate = Arc::new(rt.alloc(), MeetGate::new())?;
    let watched = Box::new(rt.alloc(), Arc::try_clone(&gate)?)?;
    let ran = run_through(&rt, rt.alloc(), "sim 7 --workers 2", watched)?;
    assert!(rt; gate.met() && ran.status == 0);
    Ok(())
}

/// Whether exactly three workers come in a run, and it writes what is wanted.
fn three_come<R: Threads + Sync>(
    rt: &R,
    alloc: Global,
    line: &str,
    wanted: &str,
) -> Result<bool, AllocError> {
    let gate = Arc::new(alloc, ThreeGate::new())?;
    let watched = Box::new(alloc, Arc::try_clone(&gate)?)?;
    let ran = run_through(rt, alloc, line, watched)?;
    Ok(gate.three_came() && are_as_wanted(alloc, ran.out.bytes(), wanted)?)
}

#[test]
fn three_workers_of_a_record_come(rt: HostRuntime) -> Result<(), Fail> {
    let alloc = rt.alloc();
    let asked = three_come(&rt, alloc, "record wide s.one --workers 3", "=wide.2")?;
    let own = three_come(&rt, alloc, "record wide s.one", "=wide.2")?;
    assert!(rt; asked && own);
    Ok(())
}

#[test]
fn three_workers_of_a_record_that_is_run_again_come(rt: HostRuntime) -> Result<(), Fail> {
    let alloc = rt.alloc();
    let replay = three_come(&rt, alloc, "replay wide.1 --workers 3", "=wide.1")?;
    let check = three_come(&rt, alloc, "check wide.1 --workers 3", "genuine 1/")?;
    let upgrade = three_come(&rt, alloc, "upgrade wide.1 --workers 3", "=wide.2")?;
    assert!(rt; replay && check && upgrade);
    Ok(())
}
