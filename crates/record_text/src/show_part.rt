//! Selects a part of a record's text.

/// What is printed of a record.
#[derive(Clone, Copy, Debug, PartialEq, Eq, Drop)]
pub enum ShowPart {
    /// The lines of all items, and then the reports on its runs.
    All,
    /// Only the reports.
    Reports,
    /// Only the lines of the Run frame of this number, counted from 1.
    Cycle(u32),
}
