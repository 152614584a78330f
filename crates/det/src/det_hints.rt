//! Hints of `det`, written after the answer's line.
use cli_words::{CommandWord, read_words};
use det_cli::{Answer, Status};
use det_io::{DirShelf, Sink, write_all};
use hints_on_files::command_hint;
use hints_on_words::{
    can_reread, help_for, words_fault, write_copy_names, write_hint, write_input_hint,
    write_named_hint, write_output_hint, write_words_hint,
};
use std::alloc::Global;
use std::io::Error;

/// Refuses to write a record to a terminal, with the line of a write fault and a hint.
pub(crate) fn refuse_terminal<E: Sink>(alloc: Global, err: &mut E) -> Status {
    let line = Answer::WriteFault.line();
    if write_all(err, line.as_slice()).is_ok() {
        let hint = "standard output is a terminal: redirect it, or add --force";
        write_hint(alloc, hint, err);
    }
    Status::WriteFault
}

/// Writes the hints on arguments that are no command.
fn hint_on_words<E: Sink>(rt: &HostRuntime, words: &[String], err: &mut E) {
    write_words_hint(rt, rt.alloc(), words_fault(words), help_for(words), err);
}

/// Writes the hint on a file that couldn't be opened or read.
fn hint_on_read<E: Sink>(
    alloc: Global,
    words: &[String],
    failed: Option<(u32, Error)>,
    err: &mut E,
) {
    let Some(command) = read_words(words) else {
        return;
    };
    write_input_hint(alloc, command.names.as_slice(), failed, err);
}

/// Writes the names of the records in which `compare` or `check` found a difference.
fn hint_on_difference<E: Sink>(alloc: Global, words: &[String], err: &mut E) {
    let Some(command) = read_words(words) else {
        return;
    };
    if let CommandWord::Compare | CommandWord::Check = command.word {
        write_copy_names(alloc, command.names.as_slice(), err);
    }
}

/// Writes the hint on a file that was refused. The hint on a record begins with its name.
fn hint_on_file<E: Sink>(rt: &HostRuntime, words: &[String], status: Status, err: &mut E) {
    let alloc = rt.alloc();
    let Some(command) = read_words(words) else {
        return;
    };
    if !can_reread(rt, command.names.as_slice()) {
        return;
    }
    let mut shelf = DirShelf::new(rt, alloc);
    let Some(found) = command_hint(alloc, &command, status, &mut shelf) else {
        return;
    };
    match found.copy {
        Some(copy) => write_named_hint(alloc, command.name(copy), found.hint, err),
        None => write_hint(alloc, found.hint, err),
    };
}

/// Writes the hints on a status whose line was written. They say in which records there is a
/// difference, why the arguments are no command, why the system failed, or what is wrong with a
/// file, which is read once more.
///
/// `unread` is the slot that failed, with its error, and `failed` the error of standard output.
pub(crate) fn write_hints<E: Sink>(
    rt: &HostRuntime,
    words: &[String],
    status: Status,
    unread: Option<(u32, Error)>,
    failed: Option<Error>,
    err: &mut E,
) {
    let alloc = rt.alloc();
    match status {
        Status::Differs => hint_on_difference(alloc, words, err),
        Status::BadWords => hint_on_words(rt, words, err),
        Status::ReadFault => hint_on_read(alloc, words, unread, err),
        Status::WriteFault => write_output_hint(alloc, failed, err),
        Status::BadManifest | Status::BadStimulus | Status::BadRecord => {
            hint_on_file(rt, words, status, err);
        }
        _ => {}
    }
}
