//! The formats of a record, and the part of a frame that each keeps.
ghost use Rattle.std.specs.Prelude.{◌≡◌};
ghost use Rattle.det_values.specs.Frames.{in_format, outcome_in_format, all_without_draws};

use crate::{Frame, Outcome};

/// The format of a record. Tools write Two, and still read One.
#[derive(Clone, Copy, Debug, PartialEq, Eq, Drop)]
pub enum Format {
    One,
    Two,
}

/// Reduces a frame to what a format keeps. One has no draws, so all of them become 0; Two changes
/// nothing.
pub fn reduce_to_format(format: Format, frame: &mut Frame)
    ensures { frame.new ≡ in_format format frame.old }
{
    match (format, frame) {
        (Format::One, Frame::Run(run)) => match &mut run.outcome {
            Outcome::Finished { elements, .. } => elements.clear_draws(),
            Outcome::Refused(_) => {}
        },
        _ => {}
    }
}
