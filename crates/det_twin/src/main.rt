//! The program `det_twin`: `twin_top` over the real files, standard output and standard error.
//! After it, hints are written.
#![tactic(auto)]

mod twin_hints;
mod twins_fault;

use cli_answers::report_out_of_memory;
use cli_words::program_words;
use det_io::{DirShelf, StdSink};
use std::process::ExitCode;
use twin_cli::twin_top;
use twin_hints::write_hints;

fn main(rt: HostRuntime) -> ExitCode {
    let alloc = rt.alloc();
    let mut err = StdSink::new(rt.stderr());
    let Ok(words) = program_words(&rt) else {
        return ExitCode::from(report_out_of_memory(&mut err).number());
    };
    let mut shelf = DirShelf::new(&rt, alloc);
    let mut out = StdSink::new(rt.stdout());
    let status = twin_top(&rt, alloc, &words, &mut shelf, &mut out, &mut err);
    if err.failed().is_none() {
        write_hints(&rt, &words, status, shelf.failed(), out.failed(), &mut err);
    }
    ExitCode::from(status.number())
}
