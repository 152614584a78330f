//! `Verdict` and `BadCopy`: what `compare` returns.
use crate::Difference;
use record_codec::RecordFault;

/// The result of comparing copies that have no fault before their first difference.
#[derive(Clone, Copy, Debug, PartialEq, Eq, Drop)]
pub enum Verdict {
    /// All copies are one whole record with this number of cycles.
    Agree { cycles: u32 },
    /// In the first row in which not all copies agree, this is the least copy that differs from
    /// copy 0. Copies count from 0.
    Differ { copy: u32, at: Difference },
}

/// A copy, counted from 0, and the fault of its record.
#[derive(Clone, Copy, Debug, PartialEq, Eq, Drop)]
pub struct BadCopy {
    pub copy: u32,
    pub fault: RecordFault,
}
