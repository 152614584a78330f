//! What a reader keeps of an item that isn't there as a whole yet: a few numbers.
use crate::stop::Stop;
use crate::view::{InputView, ItemSpan};

/// A finished cycle. Its last `left` elements and its output are still to be read.
#[derive(Clone, Copy, Drop)]
pub struct PartialRun {
    pub input: InputView,
    pub elements: u32,
    pub elements_at: usize,
    pub left: u32,
}

/// How far an item was read. If its opening isn't whole yet, this is `Nothing`: the opening is
/// short, and is read again from its first byte.
#[derive(Clone, Copy, Drop)]
pub enum Partial {
    Nothing,
    Init { elements: u32, left: u32 },
    Run(PartialRun),
}

/// How far an item was read. Its first `read` bytes aren't read again.
#[derive(Clone, Copy, Drop)]
pub struct Scan {
    pub partial: Partial,
    pub read: usize,
}

/// The result of one step, and how far the item was read.
#[derive(Clone, Copy, Drop)]
pub struct Step {
    pub scan: Scan,
    pub answer: Result<ItemSpan, Stop>,
}
