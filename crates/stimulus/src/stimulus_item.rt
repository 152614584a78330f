//! What a reader returns.
use det_values::CycleInput;

/// A complete block, or the end of the stimulus.
#[derive(Debug, PartialEq, Drop)]
pub enum StimulusItem {
    Cycle(CycleInput),
    Terminate,
}

/// The first line such that no continuation of the text up to it is a stimulus. Lines are counted
/// from 1.
#[derive(Clone, Copy, Debug, PartialEq, Eq, Drop)]
pub struct StimulusFault {
    pub line: u64,
}

/// Why a reader returns nothing more.
#[derive(Clone, Copy, Debug, PartialEq, Eq, Drop)]
pub enum StimulusError {
    Bad(StimulusFault),
    OutOfMemory,
}
