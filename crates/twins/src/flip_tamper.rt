//! `FlipTamper`: flips one bit of one frame, to test that the difference is found.
ghost use Rattle.std.specs.Prelude.{◌≡◌, IfOk};
ghost use Rattle.twins.specs.Tampers.{kind_of, flipped_last, flipped_output, flipped_frame};

use crate::Tamper;
use crate::push_item::push;
use det_values::{Bytes, Frame, Outcome, RunFrame};
use std::alloc::{AllocError, Global};

/// Flips the lowest bit of the last byte of the output in one frame of one copy. The frame stays as
/// it is if it isn't a finished cycle or if its output is empty.
#[derive(Clone, Copy, Drop)]
pub struct FlipTamper {
    copy: u32,
    number: u32,
}

impl FlipTamper {
    /// Flips a bit in frame `number` of this copy. Both count from 0.
    pub fn new(copy: u32, number: u32) -> FlipTamper
        ensures copy { result.copy ≡ copy }
        ensures number { result.number ≡ number }
    {
        FlipTamper { copy, number }
    }
}

impl Tamper for FlipTamper {
    ghost use Rattle.twins.specs.Tampers.{flipped_at};

    ghost altered = { λ tamper copy number frame.
        flipped_at tamper.copy tamper.number copy number frame };

    fn alter(&self, _: Global, copy: u32, number: u32, frame: Frame) -> Result<Frame, AllocError> {
        if copy == self.copy && number == self.number {
            return flip_frame(frame);
        }
        Ok(frame)
    }
}

fn flip_frame(frame: Frame) -> Result<Frame, AllocError>
    ensures flip_frame { IfOk result (λ sent. sent ≡ flipped_frame frame) }
    ensures kind { IfOk result (λ sent. kind_of sent ≡ kind_of frame) }
{
    match frame {
        Frame::Run(RunFrame { input, outcome }) => Ok(Frame::Run(RunFrame {
            input,
            outcome: flip_outcome(outcome)?,
        })),
        other => Ok(other),
    }
}

fn flip_outcome(outcome: Outcome) -> Result<Outcome, AllocError>
    ensures { IfOk result (λ sent. sent ≡ flipped_output outcome) }
{
    match outcome {
        Outcome::Finished { elements, output } => Ok(Outcome::Finished {
            elements,
            output: flip_last_byte(output)?,
        }),
        Outcome::Refused(at) => Ok(Outcome::Refused(at)),
    }
}

fn flip_last_byte(output: Bytes) -> Result<Bytes, AllocError>
    ensures { IfOk result (λ sent. sent ≡ flipped_last output) }
{
    let mut bytes = output.into_vec();
    let Some(last) = bytes.pop() else {
        return Ok(Bytes::from_vec(bytes));
    };
    push(&mut bytes, last ^ 1)?;
    Ok(Bytes::from_vec(bytes))
}
