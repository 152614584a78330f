//! `TwinRun`: the run that all copies make.
ghost use Rattle.std.specs.Prelude.{◌≡◌, ◌≤◌, ◌+◌, length};

use det_values::{CycleInput, Limited, Profile};

/// The inputs of the cycles of a run, in order.
pub type Inputs = Limited<CycleInput, 1000000>;

/// A run, and what may alter the frames of its copies.
#[derive(Drop)]
pub struct TwinRun<T> {
    pub profile: Profile,
    pub inputs: Inputs,
    pub tamper: T,
}

impl<T> TwinRun<T> {
    /// The number of frames in the run: a Run frame for each input, and four others.
    pub(crate) fn rows(&self) -> u32
        ensures rows { result ≡ length self.now.inputs + 4 }
        ensures most { result ≤ 1000004 }
    {
        self.inputs.len() as u32 + 4
    }
}
