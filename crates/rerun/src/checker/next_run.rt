//! The Run frame that a run gives in the place of one that was read from a record.
ghost use Rattle.std.specs.Prelude.{◌≡◌, ◌<◌, ◌++◌, List, length, OnOk, IfOk};
ghost use Rattle.std.specs.List.{All};
ghost use Rattle.det_values.specs.declared.frames.CycleInput.{CycleInput as Input};
ghost use Rattle.det_values.specs.declared.frames.Frame.TheVariants.{Run};
ghost use Rattle.det_values.specs.declared.frames.RunFrame.{RunFrame as RunValue};
ghost use Rattle.record_grammar.specs.Spelling.{CanSpell};
ghost use Rattle.record_view.specs.Shows.{IsFrameSpelling};
ghost use Rattle.rerun.specs.checker.RerunFrames.{IsEngineAfter, input_of, rerun_frame};

use det_values::{CycleInput, Frame};
use job::{Job, Pool};
use record_codec::fill_input;
use record_view::FrameView;
use recorder::run_writer::Recording;
use std::alloc::AllocError;

/// The frame of the next cycle, which is run on a pool over the input of a Run frame. `spare` is
/// the memory for that input. Nothing is written. After an error the recording must not be used.
pub(crate) fn next_run_frame<J: Job, P: Pool<J>>(
    recording: &mut Recording<J>,
    pool: &mut P,
    view: FrameView,
    bytes: &[u8],
    spare: CycleInput,
) -> Result<Frame, AllocError>
    requires behind { (given : List Input) × IsEngineAfter J.meaning recording.old given }
    requires comes { (run : RunValue) × IsFrameSpelling view (Run run) bytes.now
        × (recording.old.engine.cycles < 1000000)
        × All (λ s. s.event < length recording.old.profile.events) run.input.samples }
    ensures frame { IfOk result (λ frame. (given : List Input) (run : RunValue)
        → IsEngineAfter J.meaning recording.old given → IsFrameSpelling view (Run run) bytes.now
        → frame ≡ rerun_frame J.meaning recording.old.profile given (Run run)) }
    ensures behind { OnOk result ((given : List Input) (run : RunValue)
        → IsEngineAfter J.meaning recording.old given → IsFrameSpelling view (Run run) bytes.now
        → IsEngineAfter J.meaning recording.new (given ++ input_of (Run run))) }
    ensures spelled { IfOk result (λ frame. CanSpell recording.old.profile.format
        (length recording.old.profile.events) frame) }
    ensures profile { recording.new.profile ≡ recording.old.profile }
{
    let mut input = spare;
    fill_input(&mut input, view, bytes)?;
    let run = recording.run_cycle(pool, input)?;
    Ok(Frame::Run(run))
}
