//! Runs of `show` with other probes than those of `det`.
ghost use Rattle.std.specs.Prelude.{◌<◌, ◌^◌};

use crate::program_run::{Edges, NO_FAILURES, are_as_wanted, run_ungated};
use probes::{Audience, CountProbe, FirstRefusalProbe, LimitProbe, Probe};
use std::alloc::{AllocError, Global};
use std::test::*;
use std::thread::Threads;

/// Whether a run with this audience writes what is wanted, and ends with these lines.
fn prints<R: Threads + Sync>(
    rt: &R,
    alloc: Global,
    line: &str,
    edges: Edges,
    audience: &mut Audience,
    wanted: &str,
    end: &[u8],
) -> Result<bool, AllocError>
    requires { edges.room < 2 ^ 64 }
{
    let ran = run_ungated(rt, alloc, line, edges, audience)?;
    let is_printed = are_as_wanted(alloc, ran.out.bytes(), wanted)?;
    Ok(is_printed && ran.out.bytes().ends_with(end))
}

#[test]
fn probes_that_left_report_first_and_in_order(rt: HostRuntime) -> Result<(), Fail> {
    let alloc = rt.alloc();
    let mut probes: Vec<Box<dyn Probe>> = Vec::new(alloc);
    probes.push(Box::new(alloc, FirstRefusalProbe::new())?)?;
    probes.push(Box::new(alloc, FirstRefusalProbe::new())?)?;
    probes.push(Box::new(alloc, CountProbe::new())?)?;
    let mut audience = Audience::new(alloc, probes);
    let line = "show G2 --reports";
    let wanted = "refusal 2 pool 0 3 1/refusal 2 pool 0 3 1/count 2 1/";
    let is_printed = prints(
        &rt,
        alloc,
        line,
        NO_FAILURES,
        &mut audience,
        wanted,
        b"\ncount 2 1\n",
    )?;
    assert!(rt; is_printed && audience.remaining() == 0);
    Ok(())
}

#[test]
fn probes_leave_at_their_limits(rt: HostRuntime) -> Result<(), Fail> {
    let alloc = rt.alloc();
    let mut probes: Vec<Box<dyn Probe>> = Vec::new(alloc);
    probes.push(Box::new(alloc, LimitProbe::new(3))?)?;
    probes.push(Box::new(alloc, LimitProbe::new(2))?)?;
    probes.push(Box::new(alloc, LimitProbe::new(1))?)?;
    let mut audience = Audience::new(alloc, probes);
    let wanted = "#14725 093269bd4082cccf47bc55f4f52db8570e7420e1f7f1b5e34c4ca05ea0ba7ca0";
    let end = b"\nlimit 1 0\nlimit 2 1\nlimit 3 1\n";
    let is_printed = prints(
        &rt,
        alloc,
        "show G2",
        NO_FAILURES,
        &mut audience,
        wanted,
        end,
    )?;
    assert!(rt; is_printed && audience.remaining() == 0);
    Ok(())
}
