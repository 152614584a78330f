//! `ShowForm`, what is printed of a record and how.
use record_text::ShowPart;

/// How the items and the reports are written.
#[derive(Clone, Copy, Debug, PartialEq, Eq, Drop)]
pub enum Notation {
    /// In lines of words, several for an item.
    Lines,
    /// In JSON, a value a line.
    Json,
}

/// What is printed of a record, and how.
#[derive(Clone, Copy, Debug, PartialEq, Eq, Drop)]
pub struct ShowForm {
    pub part: ShowPart,
    pub notation: Notation,
}
