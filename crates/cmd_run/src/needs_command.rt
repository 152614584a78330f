//! The command `needs`: prints the lines of a manifest whose parameters its job takes.

mod lines;
mod manifest_needs;

pub use manifest_needs::needs;
