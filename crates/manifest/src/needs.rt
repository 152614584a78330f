//! Resource needs.

/// The resources that one initialisation or one run needs of its platform. `instructions` is the
/// number of instructions, and the next two are the numbers of those in its sequential begin and
/// end. Each is below 2^63. `speedup` is that by parallel work in thousandths, from 1 to 1,000,000.
#[derive(Clone, Copy, PartialEq, Eq, Drop)]
pub struct Needs {
    pub instructions: u64,
    pub sequential_begin: u64,
    pub sequential_end: u64,
    pub speedup: u32,
}
