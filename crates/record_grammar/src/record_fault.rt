//! Why some bytes are not a record.

/// Why a byte is refused, by its place. It is the first byte such that no record begins with it and
/// the bytes before it.
#[derive(Clone, Copy, Debug, PartialEq, Eq, Drop)]
pub enum Reason {
    /// One of the first six bytes.
    Magic,
    /// One of the two bytes after those.
    Version,
    /// A byte of any other field, or a tag that no frame has.
    Range,
    /// The tag of a frame that may not come here.
    Order,
    /// The tag of a Run frame after 1,000,000 others.
    TooMany,
    /// No byte is wrong, but the bytes end before Terminate.
    Truncated,
    /// A byte after Terminate.
    Trailing,
}

/// The first byte with which no record begins, counted from 0, and the reason. For `Truncated` the
/// offset is the number of bytes.
#[derive(Clone, Copy, Debug, PartialEq, Eq, Drop)]
pub struct RecordFault {
    pub offset: u64,
    pub reason: Reason,
}
