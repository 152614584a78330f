//! The grammar of `det`'s command line: which arguments are a command, with which names, numbers
//! and options; and the laws of that grammar. `table` lists the commands and options, `reading`
//! reads arguments by it. `det_lane` and `det_twin` have no commands. They use the numbers, names
//! and texts of this crate.
#![tactic(auto)]

mod arguments;
mod command;
mod copies;
pub mod laws;
mod name_kind;
mod names;
mod number;
mod options;
mod reading;
mod table;
mod text_word;

pub use arguments::program_words;
pub use command::Command;
pub use copies::parse_copies;
pub use name_kind::is_name;
pub use names::Names;
pub use number::number_of;
pub use options::{NOTHING_GIVEN, Options};
pub use reading::{long_form, read_words};
pub use table::{
    COMMANDS, CommandRow, CommandWord, NO_OPTIONS, NameKind, OPTIONS, OptionRow, OptionSet,
    OptionWord,
};
pub use text_word::TextWord;
