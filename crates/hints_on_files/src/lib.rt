//! Hints on files: what is wrong with a manifest, a stimulus or a record that was refused.
//!
//! Each file is read once more, by the reader that refused it. No contract connects what is found
//! then with the program's answer. A file that can't be read again has no hint.
#![tactic(auto)]

mod command_files;
mod hint;
mod manifests;
mod parameters;
mod records;
mod stimuli;

pub use command_files::{FileHint, command_hint};
pub use hint::Hint;
pub use manifests::{manifest_events, manifest_hint};
pub use parameters::{ParameterRange, parameter_hint};
pub use records::{copies_hint, run_hint};
pub use stimuli::stimulus_hint;
