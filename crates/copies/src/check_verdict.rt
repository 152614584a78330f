//! `CheckVerdict`: what a check or an upgrade of a record returns.
use crate::Difference;

/// Whether a record is what its inputs give.
#[derive(Clone, Copy, Debug, PartialEq, Eq, Drop)]
pub enum CheckVerdict {
    /// It is, and it is whole. This is the number of its Run frames, the refused ones among them.
    Genuine { cycles: u32 },
    /// It differs; this is the first place.
    Departs(Difference),
}
