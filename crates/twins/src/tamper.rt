//! `Tamper`: what may alter the frames of a copy before they are sent.
ghost use Rattle.std.specs.Prelude.{◌≡◌, IfOk};
ghost use Rattle.twins.specs.Tampers.{kind_of};

use det_values::Frame;
use std::alloc::{AllocError, Global};

/// Alters the frames of copies before they are sent. Copies count from 0, and so do the frames of
/// each. All copies call it at the same time.
pub trait Tamper: Sync {
    ghost use Rattle.std.specs.Prelude.{ℕ};
    ghost use Rattle.det_values.specs.declared.frames.Frame.{Frame as FrameValue};

    ghost altered: { Self → ℕ → ℕ → FrameValue → FrameValue };

    /// Returns the frame with this number of a copy as it is sent.
    fn alter(
        &self,
        alloc: Global,
        copy: u32,
        number: u32,
        frame: Frame,
    ) -> Result<Frame, AllocError>
        ensures altered { IfOk result (λ sent. sent ≡ altered self.now copy number frame) }
        ensures kind { IfOk result (λ sent. kind_of sent ≡ kind_of frame) };
}

/// Leaves each frame as it is.
#[derive(Clone, Copy, Drop)]
pub struct NoTamper;

impl Tamper for NoTamper {
    ghost altered = { λ _ _ _ frame. frame };

    fn alter(&self, _: Global, _: u32, _: u32, frame: Frame) -> Result<Frame, AllocError> {
        Ok(frame)
    }
}
