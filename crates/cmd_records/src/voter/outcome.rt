//! The results of a vote.
use det_values::Limited;

/// A copy, counted from 0, that isn't the majority's record, and the first row in which it differs.
///
/// Row 0 is the header, and row f + 1 is frame f. After its frames a record has one row more: that
/// it is whole, or its fault.
#[derive(Clone, Copy, Debug, PartialEq, Eq, Drop)]
pub struct Dissenter {
    pub copy: u32,
    pub row: u32,
}

/// The copies that aren't the majority's record, in the order of the copies.
pub type Dissent = Limited<Dissenter, 3>;

/// The result if more than half of the copies are one whole record: the number of its cycles, and
/// the other copies.
#[derive(Debug, Drop)]
pub struct Vote {
    pub cycles: u32,
    pub dissent: Dissent,
}

/// The error if no whole record is that of more than half of the copies. The row is the first that
/// not more than half of them hold together.
#[derive(Clone, Copy, Debug, PartialEq, Eq, Drop)]
pub struct NoMajority {
    pub row: u32,
}
