//! The reason why a reader returns no value.
use record_grammar::Reason;

/// Why bytes give no value.
#[derive(Clone, Copy, Debug, PartialEq, Eq, Drop)]
pub enum Stop {
    /// They begin a value, but end too early.
    More,
    /// No value begins with them. `left` counts the bytes from the first wrong one to the end.
    Bad { reason: Reason, left: usize },
}
