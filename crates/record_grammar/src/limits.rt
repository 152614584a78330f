//! The numbers that a field may hold.

/// The numbers that a field of at most eight bytes may hold.
#[derive(Clone, Copy, Debug, PartialEq, Eq, Drop)]
pub enum Limits {
    /// From `least` to `most`, both included.
    Between { least: u64, most: u64 },
    /// From minus `most` to `most`, in 64 bits of two's complement.
    Around { most: u64 },
}
