//! `Command`, what the arguments ask for.
ghost use Rattle.std.specs.Prelude.{◌≡◌};
ghost use Rattle.cli_words.specs.Command.{command_value, name_at, number_in};

use crate::names::Names;
use crate::number::number_of;
use crate::options::Options;
use crate::table::CommandWord;

/// A command with its names and options. `read_words` returns only commands that keep to their row
/// of the table.
#[derive(Clone, Copy)]
pub struct Command<'a> {
    pub word: CommandWord,
    pub names: Names<'a>,
    pub options: Options,
}

impl<'a> Command<'a> {
    /// The name at a place, counted from 0, or the empty text if there is none.
    pub fn name(&self, place: usize) -> &'a str
        ensures { result.now ≡ name_at place (command_value self.now) }
    {
        self.names.at(place)
    }

    /// The number that the first name spells, or 0 if it spells none.
    pub fn number(&self) -> u64
        ensures { result ≡ number_in (command_value self.now) }
    {
        number_of(self.name(0)).unwrap_or(0)
    }
}
