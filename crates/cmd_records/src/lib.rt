//! The commands that read records and run no job: `show`, `salvage`, `compare` and `vote`.
//!
//! Each command is a folder and takes names. `record_show` and `voter` do the work of `show` and
//! `vote` over slots.
#![tactic(auto)]

mod command_ends;
pub mod compare_command;
pub mod open_names;
pub mod record_show;
pub mod salvage_command;
pub mod show_command;
pub mod vote_command;
pub mod voter;
