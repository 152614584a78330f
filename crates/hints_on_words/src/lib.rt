//! Hints on words: further lines on standard error for arguments that are no command, for files
//! that can't be read, for copies that differ and for errors of the system.
//!
//! The contracts of the programs don't cover them. Hints on files are in `hints_on_files`.
#![tactic(auto)]

mod command_words;
mod excerpt;
mod hint_lines;
mod named_hints;
mod system;
mod word_faults;

pub use command_words::{help_for, words_fault};
pub use excerpt::Excerpt;
pub use hint_lines::{Help, write_hint, write_input_hint, write_output_hint, write_words_hint};
pub use named_hints::{write_copy_names, write_named_hint};
pub use system::can_reread;
pub use word_faults::{WordsFault, misplaced_word};
