//! The position of a slot of a shelf in memory.

/// A file by its index, and the number of its bytes that were read.
#[derive(Clone, Copy, Debug)]
pub struct FilePlace {
    pub file: usize,
    pub at: usize,
}
