//! `FrameRoom`: the memory that a check uses again for each frame.
ghost use Rattle.std.specs.Prelude.{◌≡◌, IfOk, IsTrue};
ghost use Rattle.det_values.specs.declared.frames.Frame.{Frame as FrameValue};
ghost use Rattle.record_grammar.specs.Places.{format_of};
ghost use Rattle.record_grammar.specs.Spelling.{CanSpell};
ghost use Rattle.record_view.specs.Shows.{IsFrameSpelling, events_of};
ghost use Rattle.rerun.specs.checker.RerunFrames.{AreAlike};

use crate::checker::frame_pair::FramePair;
use crate::checker::next_run::next_run_frame;
use crate::replayer::empty_input;
use det_values::{CycleInput, Frame};
use job::{Job, Pool};
use record_codec::{encode_frame, frame_of};
use record_view::{FrameKind, FrameView, events_at, format_at};
use recorder::run_writer::Recording;
use std::alloc::{AllocError, Global};
use std::mem;

/// Gives the frames of a run in the places of those that were read, and compares the two. Its
/// memory is used again for each frame.
#[derive(Drop)]
pub struct FrameRoom {
    alloc: Global,
    /// The memory for the input of the next cycle.
    spare: CycleInput,
    /// The frame of the run in the bytes of the record.
    spelling: Vec<u8>,
}

impl FrameRoom {
    ghost use Rattle.std.specs.Prelude.{◌++◌, List, length, OnOk};
    ghost use Rattle.det_values.specs.declared.frames.CycleInput.{CycleInput as Input};
    ghost use Rattle.rerun.specs.checker.RerunFrames.{IsEngineAfter, CanCome, input_of};
    ghost use Rattle.rerun.specs.checker.RerunFrames.{rerun_frame};
    ghost use Rattle.rerun.specs.checker.FramePair.{rerun_frame_in};

    /// An empty room. It allocates nothing.
    pub fn new(alloc: Global) -> FrameRoom {
        FrameRoom {
            alloc,
            spare: empty_input(alloc),
            spelling: Vec::new(alloc),
        }
    }

    /// The frame that the run gives in the place of one that was read. For a Run frame the next
    /// cycle is run on a pool over the input of the frame that was read. Nothing is written. After
    /// an error the recording must not be used.
    pub fn give<J: Job, P: Pool<J>>(
        &mut self,
        recording: &mut Recording<J>,
        pool: &mut P,
        view: FrameView,
        bytes: &[u8],
    ) -> Result<Frame, AllocError>
        requires behind { (given : List Input) × IsEngineAfter J.meaning recording.old given }
        requires comes { (read : FrameValue) × IsFrameSpelling view read bytes.now
            × CanCome recording.old.engine.cycles (length recording.old.profile.events) read }
        ensures frame { IfOk result (λ frame. (given : List Input) (read : FrameValue)
            → IsEngineAfter J.meaning recording.old given → IsFrameSpelling view read bytes.now
            → frame ≡ rerun_frame J.meaning recording.old.profile given read) }
        ensures behind { OnOk result ((given : List Input) (read : FrameValue)
            → IsEngineAfter J.meaning recording.old given → IsFrameSpelling view read bytes.now
            → IsEngineAfter J.meaning recording.new (given ++ input_of read)) }
        ensures spelled { IfOk result (λ frame. CanSpell recording.old.profile.format
            (length recording.old.profile.events) frame) }
        ensures profile { recording.new.profile ≡ recording.old.profile }
    {
        match view.kind {
            FrameKind::Register => Ok(Frame::Register),
            FrameKind::Discover => Ok(Frame::Discover),
            FrameKind::Init { .. } => recording.init(),
            FrameKind::Run { .. } => {
                let spare = mem::replace(&mut self.spare, empty_input(self.alloc));
                next_run_frame(recording, pool, view, bytes, spare)
            }
            FrameKind::Terminate => Ok(Frame::Terminate),
        }
    }

    /// Compares a frame that was read with the one that the run gives. The frame that was read
    /// becomes a value only where the bytes of the two differ.
    pub fn compare(
        &mut self,
        view: FrameView,
        bytes: &[u8],
        given: Frame,
    ) -> Result<FramePair, AllocError>
        requires spells { CanSpell (format_of view.place) (events_of view.place) given }
        requires read { (read : FrameValue) × IsFrameSpelling view read bytes.now
            × AreAlike read given }
        ensures read { IfOk result (λ compared. (read : FrameValue)
            → IsFrameSpelling view read bytes.now → compared.read ≡ read) }
        ensures given { IfOk result (λ compared. rerun_frame_in compared ≡ given) }
    {
        if rerun_equals_read(view, bytes, &given, &mut self.spelling)? {
            return Ok(FramePair {
                read: given,
                other: None,
            });
        }
        let read = frame_of(self.alloc, view, bytes)?;
        Ok(FramePair {
            read,
            other: Some(given),
        })
    }

    /// Takes back a frame that is no longer needed, to use the memory of a Run frame again.
    pub fn take_back<J: Job>(&mut self, recording: &mut Recording<J>, frame: Frame)
        ensures { recording.new ≡ recording.old }
    {
        if let Frame::Run(run) = frame {
            self.spare = recording.take_back(run);
        }
    }
}

/// Whether the bytes of a frame that was read are those of another frame of its kind.
fn rerun_equals_read(
    view: FrameView,
    bytes: &[u8],
    given: &Frame,
    spelling: &mut Vec<u8>,
) -> Result<bool, AllocError>
    requires spells { CanSpell (format_of view.place) (events_of view.place) given.now }
    requires read { (read : FrameValue) × IsFrameSpelling view read bytes.now
        × AreAlike read given.now }
    ensures { IfOk result (λ same. IsTrue same → (read : FrameValue)
        → IsFrameSpelling view read bytes.now → given.now ≡ read) }
{
    spelling.clear();
    encode_frame(
        format_at(view.place),
        events_at(view.place),
        given,
        spelling,
    )?;
    Ok(spelling.as_slice() == bytes)
}
