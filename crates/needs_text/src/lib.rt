//! The lines that `needs` prints of a manifest, in a short text that takes no memory.
#![tactic(auto)]

mod needs_lines;
mod short_text;

pub use needs_lines::manifest_text;
pub use short_text::ShortText;
