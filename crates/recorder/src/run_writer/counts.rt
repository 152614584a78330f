//! The counts of a record.

/// The Run frames of a record, the refused ones among them, and the length of the record in bytes.
#[derive(Clone, Copy, Debug, PartialEq, Eq, Drop)]
pub struct Counts {
    pub cycles: u32,
    pub refused: u32,
    /// Saturates at the last value of its type.
    pub bytes: u64,
}
