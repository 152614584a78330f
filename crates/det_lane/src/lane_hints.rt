//! Hints of `det_lane`, written after the answer's line.
use det_io::Sink;
use hints_on_words::{
    Help, WordsFault, misplaced_word, write_hint, write_input_hint, write_output_hint,
    write_words_hint,
};
use lane::child_processes::ChildFault;
use lane::{LaneStatus, limit_of};
use std::io::Error;
use std::process::ExitStatus;

/// Its arguments, by their names in the usage.
const PLACES: [&str; 4] = ["PROGRAM", "COPIES", "MANIFEST", "STIM"];

/// The option after its arguments.
const TIMEOUT: &str = "--timeout";

/// What is wrong after the names, of arguments that are no lane.
fn options_fault(words: &[String]) -> Option<WordsFault<'_>> {
    let first = words.get(4)?.as_str();
    if first != TIMEOUT {
        return Some(WordsFault::at(4, first));
    }
    let Some(seconds) = words.get(5) else {
        return Some(WordsFault::MissingAfter("a value", TIMEOUT));
    };
    match WordsFault::check_number(5, seconds.as_str(), TIMEOUT, (1, 86_400)) {
        Ok(()) => Some(WordsFault::at(6, words.get(6)?.as_str())),
        Err(fault) => Some(fault),
    }
}

/// Why arguments are no lane, if they are none.
fn words_fault(words: &[String]) -> Option<WordsFault<'_>> {
    let fault = misplaced_word(&PLACES, words);
    if fault.is_some() {
        return fault;
    }
    options_fault(words)
}

/// Writes the hints on arguments that are no lane.
fn hint_on_words<E: Sink>(rt: &HostRuntime, words: &[String], err: &mut E) {
    let help = Help {
        program: "det_lane",
        command: None,
    };
    write_words_hint(rt, rt.alloc(), words_fault(words), help, err);
}

/// Writes why the program couldn't be started.
fn hint_on_start<E: Sink>(rt: &HostRuntime, words: &[String], error: Error, err: &mut E) {
    if let Some(program) = words.first() {
        write_input_hint(rt.alloc(), &[program.as_str()], Some((0, error)), err);
    }
}

/// Writes which child wrote nothing for as long as `--timeout` says.
fn hint_on_time<E: Sink>(rt: &HostRuntime, words: &[String], child: u32, err: &mut E) {
    let Some(seconds) = limit_of(words) else {
        return;
    };
    let alloc = rt.alloc();
    if let Ok(hint) = format!(in alloc; "child {child} wrote nothing for {seconds} s") {
        write_hint(alloc, hint, err);
    }
}

/// Writes how a child ended that has no number as its exit status.
fn hint_on_end<E: Sink>(rt: &HostRuntime, child: u32, status: ExitStatus, err: &mut E) {
    let alloc = rt.alloc();
    if let Ok(hint) = format!(in alloc; "child {child} ended with {status}") {
        write_hint(alloc, hint, err);
    }
}

/// Writes what the system told of a child that failed.
fn hint_on_child<E: Sink>(rt: &HostRuntime, words: &[String], fault: ChildFault, err: &mut E) {
    match fault {
        ChildFault::NotStarted(error) => hint_on_start(rt, words, error, err),
        ChildFault::Late(child) => hint_on_time(rt, words, child, err),
        ChildFault::NoNumber(child, status) => hint_on_end(rt, child, status, err),
    }
}

/// What a run of a lane found out besides its status.
#[derive(Drop)]
pub(crate) struct Reasons {
    /// Why standard output failed.
    pub failed: Option<Error>,
    /// What went wrong with a child.
    pub fault: Option<ChildFault>,
}

/// Writes the hints on a status whose line was written: why the arguments are no lane, the system's
/// reason for a failed write, or what it told of a child.
pub(crate) fn write_hints<E: Sink>(
    rt: &HostRuntime,
    words: &[String],
    status: LaneStatus,
    reasons: Reasons,
    err: &mut E,
) {
    match status {
        LaneStatus::BadWords => hint_on_words(rt, words, err),
        LaneStatus::WriteFault => write_output_hint(rt.alloc(), reasons.failed, err),
        LaneStatus::SpawnFault => {
            if let Some(fault) = reasons.fault {
                hint_on_child(rt, words, fault, err);
            }
        }
        _ => {}
    }
}
