//! Hints of `det_twin`, written after the answer's line.
use crate::twins_fault::words_fault;
use det_io::{DirShelf, Shelf, Sink};
use hints_on_files::{Hint, manifest_events, manifest_hint, stimulus_hint};
use hints_on_words::{
    Help, can_reread, write_hint, write_input_hint, write_output_hint, write_words_hint,
};
use std::alloc::Global;
use std::io::Error;
use twin_cli::{TwinCommand, TwinStatus, Twins};

/// Writes the hints on arguments that are no twins.
fn hint_on_words<E: Sink>(rt: &HostRuntime, words: &[String], err: &mut E) {
    let help = Help {
        program: "det_twin",
        command: None,
    };
    write_words_hint(rt, rt.alloc(), words_fault(words), help, err);
}

/// What is wrong with the file for which twins ended with this status.
fn file_hint<S: Shelf>(
    alloc: Global,
    twins: &Twins<'_>,
    status: TwinStatus,
    shelf: &mut S,
) -> Option<Hint> {
    match status {
        TwinStatus::BadManifest => {
            manifest_hint(alloc, &[twins.manifest], twins.options.strict, shelf)
        }
        TwinStatus::BadStimulus => {
            let events = manifest_events(alloc, twins.manifest, shelf)?;
            stimulus_hint(alloc, twins.stimulus, events, true, shelf)
        }
        _ => None,
    }
}

/// Writes the hint on a file of twins that couldn't be read, or was refused.
fn hint_on_twins<E: Sink>(
    rt: &HostRuntime,
    twins: &Twins<'_>,
    status: TwinStatus,
    unread: Option<(u32, Error)>,
    err: &mut E,
) {
    let alloc = rt.alloc();
    let names = [twins.manifest, twins.stimulus];
    if let TwinStatus::ReadFault = status {
        write_input_hint(alloc, &names, unread, err);
        return;
    }
    if !can_reread(rt, &names) {
        return;
    }
    let mut shelf = DirShelf::new(rt, alloc);
    if let Some(hint) = file_hint(alloc, twins, status, &mut shelf) {
        write_hint(alloc, hint, err);
    }
}

/// Writes the hints on a status whose line was written. They say why the arguments are no twins,
/// why the system failed, or what is wrong with a file, which is read once more.
///
/// `unread` is the slot that failed, with its error, and `failed` the error of standard output.
pub(crate) fn write_hints<E: Sink>(
    rt: &HostRuntime,
    words: &[String],
    status: TwinStatus,
    unread: Option<(u32, Error)>,
    failed: Option<Error>,
    err: &mut E,
) {
    match status {
        TwinStatus::BadWords => hint_on_words(rt, words, err),
        TwinStatus::WriteFault => write_output_hint(rt.alloc(), failed, err),
        TwinStatus::BadManifest | TwinStatus::BadStimulus | TwinStatus::ReadFault => {
            if let Some(TwinCommand::Run(twins)) = TwinCommand::from_words(words) {
                hint_on_twins(rt, &twins, status, unread, err);
            }
        }
        _ => {}
    }
}
