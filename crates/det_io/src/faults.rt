//! The errors of one read and of one write. They carry no cause: the shelf or sink keeps it.

/// A shelf could not open or read.
#[derive(Clone, Copy, Debug, PartialEq, Eq, Drop)]
pub struct ShelfFailed;

/// A sink could not take the bytes of a write.
#[derive(Clone, Copy, Debug, PartialEq, Eq, Drop)]
pub struct SinkFailed;
