//! Chooses the files of a command of `det` that are read again for a hint.
ghost use Rattle.std.specs.Prelude.{◌≡◌, ◌<◌, length, true, IfSome};
ghost use Rattle.cli_words.specs.Names.{texts_of};
ghost use Rattle.hints_on_files.specs.Kinds.{fits, is_of_manifest, is_of_record, is_of_stimulus};
ghost use Rattle.hints_on_files.specs.Copies.{IsCopy};

use crate::hint::Hint;
use crate::manifests::{manifest_events, manifest_hint};
use crate::records::{copies_hint, run_hint};
use crate::stimuli::stimulus_hint;
use cli_answers::Status;
use cli_words::{Command, CommandWord};
use det_io::Shelf;
use std::alloc::Global;

/// A hint on a file of a command.
#[derive(Clone, Copy, Debug, Drop)]
pub struct FileHint {
    /// If the file is a record, its number among the command's names, counted from 0.
    pub copy: Option<usize>,
    pub hint: Hint,
}

/// What is wrong with the file for which a command ended with this status. None if it refused no
/// file, or the file can't be read again.
pub fn command_hint<S: Shelf>(
    alloc: Global,
    command: &Command<'_>,
    status: Status,
    shelf: &mut S,
) -> Option<FileHint>
    ensures kind { IfSome result (λ found. fits status found.hint ≡ true) }
    ensures copy { IfSome result (λ found.
        IsCopy status (length (texts_of command.now.names)) found.copy) }
{
    match status {
        Status::BadManifest => Some(FileHint {
            copy: None,
            hint: refused_manifest(alloc, command, shelf)?,
        }),
        Status::BadStimulus => Some(FileHint {
            copy: None,
            hint: refused_stimulus(alloc, command, shelf)?,
        }),
        Status::BadRecord => {
            let (copy, hint) = refused_record(alloc, command, shelf)?;
            Some(FileHint {
                copy: Some(copy),
                hint,
            })
        }
        _ => None,
    }
}

/// All names of `needs` are manifests. Of another command, those before the last name are.
fn refused_manifest<S: Shelf>(alloc: Global, command: &Command<'_>, shelf: &mut S) -> Option<Hint>
    ensures { IfSome result (λ hint. is_of_manifest hint ≡ true) }
{
    let names = command.names.as_slice();
    let strict = command.options.strict;
    match command.word {
        CommandWord::Needs => manifest_hint(alloc, names, strict, shelf),
        _ => manifest_hint(alloc, names.split_last()?.1, strict, shelf),
    }
}

/// A stimulus is the last name of its command. Its events are those of the first name, a manifest.
/// `demo` has a client with one event.
fn refused_stimulus<S: Shelf>(alloc: Global, command: &Command<'_>, shelf: &mut S) -> Option<Hint>
    ensures { IfSome result (λ hint. is_of_stimulus hint ≡ true) }
{
    let stimulus = *command.names.as_slice().last()?;
    let events = match command.word {
        CommandWord::Demo => 1,
        _ => manifest_events(alloc, command.name(0), shelf)?,
    };
    stimulus_hint(alloc, stimulus, events, false, shelf)
}

/// All names are records. The result has the number of the one that the hint is on.
fn refused_record<S: Shelf>(
    alloc: Global,
    command: &Command<'_>,
    shelf: &mut S,
) -> Option<(usize, Hint)>
    ensures kind { IfSome result (λ found. is_of_record found.1 ≡ true) }
    ensures copy { IfSome result (λ found. found.0 < length (texts_of command.now.names)) }
{
    let names = command.names.as_slice();
    match command.word {
        CommandWord::Replay | CommandWord::Check | CommandWord::Upgrade => {
            Some((0, run_hint(alloc, *names.first()?, shelf)?))
        }
        _ => copies_hint(alloc, names, shelf),
    }
}
