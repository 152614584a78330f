//! The counts of a chain.

/// The number of cycles, which is the same for both clients, and how many each of them refused.
#[derive(Clone, Copy, Debug, PartialEq, Eq, Drop)]
pub struct ChainCounts {
    pub cycles: u32,
    pub refused_first: u32,
    pub refused_second: u32,
}
