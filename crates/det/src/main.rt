//! The program `det`: `top` over the real files, standard output and standard error, with the
//! shipped probes. Before it, a record for a terminal is refused; after it, hints are written.
#![tactic(auto)]

mod det_hints;
mod terminal;

use cli_answers::report_out_of_memory;
use cli_words::program_words;
use det_cli::{Host, Status, top};
use det_hints::{refuse_terminal, write_hints};
use det_io::{DirShelf, Shelf, Sink, StdSink};
use probes::{Audience, CountProbe, FirstRefusalProbe, GapProbe, Probe};
use std::alloc::AllocError;
use std::io::IsTerminal;
use std::process::ExitCode;
use std::sync::Arc;
use std::thread::Threads;
use terminal::{is_forced, writes_record};
use worker_pool::{AnyGate, NapGate};

/// A gate at which a run's idle threads sleep by the clock.
fn nap_gate(rt: &HostRuntime) -> Result<Box<NapGate<HostRuntime>>, AllocError> {
    let clock = rt.clone()?;
    Ok(Box::new(rt.alloc(), NapGate { clock })?)
}

/// Calls `top` with the shipped probes.
fn run_with_probes<R: Threads, S: Shelf, K: Sink, E: Sink>(
    host: &Host<'_, R>,
    words: &[String],
    shelf: &mut S,
    out: &mut K,
    err: &mut E,
) -> Result<Status, AllocError> {
    let alloc = host.alloc;
    let mut probes = Vec::<Box<dyn Probe>>::with_capacity(alloc, 3)?;
    probes.push(Box::new(alloc, CountProbe::new())?)?;
    probes.push(Box::new(alloc, GapProbe::new())?)?;
    probes.push(Box::new(alloc, FirstRefusalProbe::new())?)?;
    let mut audience = Audience::new(alloc, probes);
    Ok(top(host, words, shelf, out, err, &mut audience))
}

fn main(rt: HostRuntime) -> ExitCode {
    let alloc = rt.alloc();
    let mut err = StdSink::new(rt.stderr());
    let (Ok(mut words), Ok(gate)) = (program_words(&rt), nap_gate(&rt)) else {
        return ExitCode::from(report_out_of_memory(&mut err).number());
    };
    if is_forced(&words) {
        words.pop();
    } else if writes_record(&words) && rt.stdout().is_terminal() {
        let status = refuse_terminal(alloc, &mut err);
        return ExitCode::from(status.number());
    }
    let Ok(gate) = Arc::new(alloc, AnyGate::new(gate)) else {
        return ExitCode::from(report_out_of_memory(&mut err).number());
    };
    let host = Host {
        rt: &rt,
        alloc,
        gate: &gate,
    };
    let mut shelf = DirShelf::new(&rt, alloc);
    let mut out = StdSink::new(rt.stdout());
    let Ok(status) = run_with_probes(&host, &words, &mut shelf, &mut out, &mut err) else {
        return ExitCode::from(report_out_of_memory(&mut err).number());
    };
    if err.failed().is_none() {
        write_hints(&rt, &words, status, shelf.failed(), out.failed(), &mut err);
    }
    ExitCode::from(status.number())
}
