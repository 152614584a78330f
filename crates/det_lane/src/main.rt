//! The program `det_lane`: `lane_top` over processes of the system, standard output and standard
//! error. After it, hints are written.
#![tactic(auto)]

mod lane_hints;

use cli_answers::report_out_of_memory;
use cli_words::program_words;
use det_io::StdSink;
use lane::child_processes::{ChildShelf, ProcessSpawner};
use lane::{lane_top, limit_of};
use lane_hints::{Reasons, write_hints};
use std::process::ExitCode;

fn main(rt: HostRuntime) -> ExitCode {
    let alloc = rt.alloc();
    let mut err = StdSink::new(rt.stderr());
    let Ok(words) = program_words(&rt) else {
        return ExitCode::from(report_out_of_memory(&mut err).number());
    };
    let mut children = ChildShelf {
        spawner: ProcessSpawner::new(&rt, alloc, rt.stderr(), limit_of(&words)),
    };
    let mut out = StdSink::new(rt.stdout());
    let status = lane_top(alloc, &words, &mut children, &mut out, &mut err);
    if err.failed().is_none() {
        let reasons = Reasons {
            failed: out.failed(),
            fault: children.spawner.take_fault(),
        };
        write_hints(&rt, &words, status, reasons, &mut err);
    }
    ExitCode::from(status.number())
}
