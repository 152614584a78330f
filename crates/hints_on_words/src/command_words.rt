//! Finds the first argument of `det` at which the arguments stop being a command.
ghost use Rattle.std.specs.Prelude.{◌≡◌, ◌↔◌, IsNone, IsSome, codes, option_map};
ghost use Rattle.cli_words.specs.Names.{texts};
ghost use Rattle.cli_words.specs.Reading.{command_of};
ghost use Rattle.hints_on_words.specs.Pages.{page_word};

use crate::hint_lines::Help;
use crate::word_faults::WordsFault;
use cli_words::{
    CommandRow, CommandWord, NameKind, OptionWord, is_name, long_form, number_of, read_words,
};

fn is_name_of(kind: NameKind, word: &str) -> bool {
    is_name(word)
        && match kind {
            NameKind::File => true,
            NameKind::Number => number_of(word).is_some(),
            NameKind::Command => CommandWord::from_word(word).is_some(),
        }
}

/// The option among these arguments that `--reports` excludes, and `--cycle` if there are both.
fn excluded_by_reports(words: &[String]) -> &'static str {
    // No name and no value looks like an option.
    let has_cycle = words.iter().any(|word| word.as_str() == "--cycle");
    if has_cycle { "--cycle" } else { "--json" }
}

/// Why the arguments from the second one on don't complete the command of the first one.
fn fault_after(row: CommandRow, words: &[String]) -> WordsFault<'_> {
    let mut names = 0;
    let mut awaited = None;
    for place in 1..words.len() {
        let word = words[place].as_str();
        if let Some((option, range)) = awaited {
            if let Err(fault) = WordsFault::check_number(place, word, option, range) {
                return fault;
            }
            awaited = None;
            continue;
        }
        // No name and no value looks like an option.
        let is_new = words[..place]
            .iter()
            .all(|earlier| earlier.as_str() != word);
        match OptionWord::from_word(word) {
            Some(option) if is_new && row.options.has(option) => {
                let option = option.row();
                awaited = option.range.map(|range| (option.word, range));
            }
            None if names < row.most && is_name_of(row.names, word) => names += 1,
            _ => return WordsFault::at(place, word),
        }
    }
    match awaited {
        Some((option, _)) => WordsFault::MissingAfter("a value", option),
        None if names < row.least => WordsFault::MissingAfter("a name", row.word),
        None => WordsFault::Both("--reports", excluded_by_reports(words)),
    }
}

/// Why the arguments after the program's name are no command of `det`. None if they are one.
pub fn words_fault(words: &[String]) -> Option<WordsFault<'_>>
    ensures { IsNone result ↔ IsSome (command_of (texts words.now)) }
{
    if read_words(words).is_some() {
        return None;
    }
    let first = match words {
        [] => return Some(WordsFault::Missing("a command")),
        [word] => long_form(word.as_str()),
        [first, second] if first.as_str() == "help" || second.as_str() == "--help" => {
            long_form(first.as_str())
        }
        [first, ..] => first.as_str(),
    };
    Some(match CommandWord::from_word(first) {
        Some(command) => fault_after(command.row(), words),
        None => WordsFault::at(0, first),
    })
}

/// The first argument, if it is a command with a page of its own.
fn page_word(words: &[String]) -> Option<&'static str>
    ensures { option_map (λ word. word.now) result ≡ page_word (texts words.now) }
{
    match words {
        [] => None,
        [first, ..] => match CommandWord::from_word(first.as_str())? {
            CommandWord::Help | CommandWord::Version => None,
            command => Some(command.row().word),
        },
    }
}

/// Where help is found: on the page of the command that the first argument names, or else on the
/// page of `det`.
pub fn help_for(words: &[String]) -> Help
    ensures program { result.program.now ≡ codes "det" }
    ensures page { option_map (λ word. word.now) result.command ≡ page_word (texts words.now) }
{
    Help {
        program: "det",
        command: page_word(words),
    }
}
