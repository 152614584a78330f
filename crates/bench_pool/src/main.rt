//! The program `bench_pool`: prints the time of a pass of the heavy job by 1, 2 and 4 workers.
#![tactic(auto)]

mod time_pass;

use crate::time_pass::time_crew_pass;
use anyhow::Context;
use det_values::Params;
use std::env;

/// The number of elements of the pass.
const ELEMENTS: i64 = 10_000;

const WORKERS: [u32; 3] = [1, 2, 4];

fn main(rt: HostRuntime) -> anyhow::Result<()> {
    let word = env::args(&rt)?.nth(1);
    if !word.is_some_and(|word| word.as_str() == "--times") {
        eprintln!(rt; "bench_pool --times prints how long a pass of the pool takes")?;
        return Ok(());
    }
    let alloc = rt.alloc();
    let mut params = Params::new(alloc);
    params.push(ELEMENTS).ok().context("out of memory")?;
    for workers in WORKERS {
        let time = time_crew_pass(&rt, alloc, &params, workers.clamp(1, 64))?;
        println!(rt; "{ELEMENTS} heavy elements, {workers} workers: {time:?}")?;
    }
    Ok(())
}
