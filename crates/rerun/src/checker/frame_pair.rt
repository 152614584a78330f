//! A frame that was read, paired with the one that the run gives in its place.
ghost use Rattle.std.specs.Prelude.{◌≡◌};
ghost use Rattle.copies.specs.FirstDifference.{frame_difference};
ghost use Rattle.rerun.specs.checker.FramePair.{rerun_frame_in};

use copies::{Difference, first_frame_difference};
use det_values::Frame;

/// A frame that was read, and the frame that the run gives in its place.
#[derive(Drop)]
pub struct FramePair {
    /// The frame that was read.
    pub read: Frame,
    /// The frame that the run gives. None where it is equal to `read`.
    pub other: Option<Frame>,
}

impl FramePair {
    /// The first difference of the two, which have this frame number.
    pub fn difference(&self, number: u32) -> Option<Difference>
        ensures { result ≡ frame_difference number self.now.read (rerun_frame_in self.now) }
    {
        match &self.other {
            None => None,
            Some(given) => first_frame_difference(number, &self.read, given),
        }
    }
}
