//! Finds the commands that write a record, since its bytes are unfit for a terminal.
use cli_words::{CommandWord, read_words};

/// The last argument, if a record may be written to a terminal.
const FORCE: &str = "--force";

/// Whether the arguments are a command whose standard output is a record.
pub(crate) fn writes_record(words: &[String]) -> bool {
    let Some(command) = read_words(words) else {
        return false;
    };
    match command.word {
        CommandWord::Record
        | CommandWord::Demo
        | CommandWord::Replay
        | CommandWord::Upgrade
        | CommandWord::Chain => true,
        CommandWord::Vote => !command.options.dissent,
        CommandWord::Salvage => !command.options.reports,
        _ => false,
    }
}

/// Whether the arguments are such a command and then `--force`.
pub(crate) fn is_forced(words: &[String]) -> bool {
    match words {
        [front @ .., last] => last.as_str() == FORCE && writes_record(front),
        [] => false,
    }
}
