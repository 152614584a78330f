//! Reads the arguments one by one, by the tables of commands and options.
ghost use Rattle.std.specs.Prelude.{◌≡◌, ◌∷◌, [], option_map};
ghost use Rattle.cli_words.specs.Names.{texts};
ghost use Rattle.cli_words.specs.Command.{command_value};
ghost use Rattle.cli_words.specs.Reading.{reading_value, into_reading, bare_command};
ghost use Rattle.cli_words.specs.Reading.{with_name, with_value, with_option};
ghost use Rattle.cli_words.specs.Reading.{with_word, with_words, is_whole, into_command};
ghost use Rattle.cli_words.specs.FirstWord.{read};
ghost use Rattle.cli_words.specs.Reading.{is_in_range, long_form, long_form_pair, read_long_form};
ghost use Rattle.cli_words.specs.Reading.{command_of};

use crate::command::Command;
use crate::names::Names;
use crate::number::number_of;
use crate::options::NOTHING_GIVEN;
use crate::table::{CommandWord, OptionRow, OptionWord};

/// What the arguments gave so far, and the option that awaits its value.
#[derive(Clone, Copy)]
pub(crate) struct Reading<'a> {
    command: Command<'a>,
    awaited: Option<OptionWord>,
}

impl OptionRow {
    fn is_in_range(&self, number: u64) -> bool
        ensures { result ≡ is_in_range self.now.range number }
    {
        match self.range {
            Some((least, most)) => least <= number && number <= most,
            None => false,
        }
    }
}

impl<'a> Command<'a> {
    /// The command, with no option awaiting a value.
    fn into_reading(self) -> Reading<'a>
        ensures { reading_value result ≡ into_reading (command_value self.entry) }
    {
        Reading {
            command: self,
            awaited: None,
        }
    }

    /// Adds a name. None if the row takes no such name, or no further one.
    fn with_name(self, word: &'a str) -> Option<Reading<'a>>
        ensures { option_map reading_value result ≡ with_name word.now (command_value self.entry) }
    {
        let row = self.word.row();
        if !row.names.takes(word) {
            return None;
        }
        if self.names.count() >= row.most {
            return None;
        }
        let mut names = self.names;
        names.push(word);
        Some(Command { names, ..self }.into_reading())
    }

    /// Adds the value of an option. None if it isn't a number in the option's range.
    fn with_value(self, option: OptionWord, word: &str) -> Option<Reading<'a>>
        ensures { option_map reading_value result
            ≡ with_value option word.now (command_value self.entry) }
    {
        let number = number_of(word)?;
        if !option.row().is_in_range(number) {
            return None;
        }
        let options = self.options.with_value(option, number);
        Some(Command { options, ..self }.into_reading())
    }

    /// Adds an option. None if it was given before.
    fn with_option(self, option: OptionWord) -> Option<Reading<'a>>
        ensures { option_map reading_value result ≡ with_option option (command_value self.entry) }
    {
        if self.options.has(option) {
            return None;
        }
        if option.row().range.is_some() {
            return Some(Reading {
                command: self,
                awaited: Some(option),
            });
        }
        let options = self.options.with_flag(option);
        Some(Command { options, ..self }.into_reading())
    }
}

impl<'a> Reading<'a> {
    /// The command with no names and options yet.
    fn bare_command(word: CommandWord) -> Reading<'a>
        ensures { reading_value result ≡ bare_command word }
    {
        Command {
            word,
            names: Names::new(),
            options: NOTHING_GIVEN,
        }
        .into_reading()
    }

    /// Reads one argument more. None if it can't follow.
    fn with_word(self, word: &'a str) -> Option<Reading<'a>>
        ensures { option_map reading_value result ≡ with_word word.now (reading_value self.entry) }
    {
        match self.awaited {
            Some(option) => self.command.with_value(option, word),
            None => match self.command.word.row().options.option(word) {
                Some(option) => self.command.with_option(option),
                None => self.command.with_name(word),
            },
        }
    }

    /// Reads all these arguments.
    fn with_words(self, words: &'a [String]) -> Option<Reading<'a>>
        ensures { option_map reading_value result
            ≡ with_words (texts words.now) (reading_value self.entry) }
    {
        let mut reading = self;
        for word in words {
            reading = reading.with_word(word.as_str())?;
        }
        Some(reading)
    }

    fn is_whole(&self) -> bool
        ensures { result ≡ is_whole (reading_value self.now) }
    {
        let command = &self.command;
        let least = command.word.row().least;
        let apart = !command.options.has_conflict();
        self.awaited.is_none() && least <= command.names.count() && apart
    }

    fn into_command(self) -> Option<Command<'a>>
        ensures { option_map command_value result ≡ into_command (reading_value self.entry) }
    {
        if self.is_whole() {
            Some(self.command)
        } else {
            None
        }
    }
}

/// The command that the first argument names, with what the rest gives.
fn read<'a>(first: &str, rest: &'a [String]) -> Option<Command<'a>>
    ensures { option_map command_value result ≡ read first.now (texts rest.now) }
{
    let word = CommandWord::from_word(first)?;
    Reading::bare_command(word).with_words(rest)?.into_command()
}

/// The same with one argument after the command, so that the aliases need no new array of
/// arguments.
#[tactic(auto, unfolding(crate::specs::Reading::with_words))]
fn read_option_pair<'a>(first: &str, second: &'a str) -> Option<Command<'a>>
    ensures { option_map command_value result ≡ read first.now (second.now ∷ []) }
{
    let word = CommandWord::from_word(first)?;
    Reading::bare_command(word)
        .with_word(second)?
        .into_command()
}

/// The long form of an only argument: `-h` and `help` are `--help`, `-V` and `version` are
/// `--version`. Any other argument is its own long form.
pub fn long_form(word: &str) -> &str
    ensures { result.now ≡ long_form word.now }
{
    match word {
        "-h" | "help" => "--help",
        "-V" | "version" => "--version",
        _ => word,
    }
}

fn read_two_words<'a>(first: &'a str, second: &'a str) -> Option<Command<'a>>
    ensures { option_map command_value result
        ≡ read_long_form (long_form_pair first.now second.now) }
{
    if first == "help" {
        return read_option_pair("--help", second);
    }
    if second == "--help" {
        return read_option_pair("--help", first);
    }
    read_option_pair(first, second)
}

/// Reads the arguments after the program's name. None if they are no command.
pub fn read_words(words: &[String]) -> Option<Command<'_>>
    ensures { option_map command_value result ≡ command_of (texts words.now) }
{
    match words {
        [] => None,
        [word] => read(long_form(word.as_str()), &[]),
        [first, second] => read_two_words(first.as_str(), second.as_str()),
        [first, _, _, ..] => read(first.as_str(), &words[1..]),
    }
}
