//! One step of a check: a frame is compared, counted and shown to the audience.
ghost use Rattle.std.specs.Prelude.{◌≡◌};

use crate::checker::{FramePair, FrameRoom};
use copies::Difference;
use det_values::Frame;
use job::{Job, Pool};
use probes::{Audience, Probe};
use record_view::FrameView;
use recorder::run_writer::Recording;
use std::alloc::{AllocError, Global};

/// How far a record was compared, and the memory for the next comparison.
#[derive(Drop)]
pub(crate) struct FrameChecker {
    /// The number of frames that were compared, which is the number of the next frame.
    pub compared: u32,
    /// How many of these frames were Run frames.
    pub cycles: u32,
    room: FrameRoom,
}

impl FrameChecker {
    ghost use Rattle.std.specs.Prelude.{◌≡◌, ◌<◌, ◌+◌, List, ◌++◌, length, OnOk, IfOk};
    ghost use Rattle.det_values.specs.declared.frames.CycleInput.{CycleInput as Input};
    ghost use Rattle.det_values.specs.declared.frames.Frame.{Frame as FrameValue};
    ghost use Rattle.copies.specs.FirstDifference.{frame_difference};
    ghost use Rattle.probes.specs.Shows.{Shows, seen};
    ghost use Rattle.record_view.specs.Shows.{IsFrameSpelling};
    ghost use Rattle.rerun.specs.checker.Departure.{run_of};
    ghost use Rattle.rerun.specs.checker.RerunFrames.{IsEngineAfter, CanCome, IsPlaced, input_of};
    ghost use Rattle.rerun.specs.checker.RerunFrames.{rerun_frame};

    /// Nothing was compared yet.
    pub fn new(alloc: Global) -> FrameChecker
        ensures compared { result.compared ≡ 0 }
        ensures cycles { result.cycles ≡ 0 }
    {
        FrameChecker {
            compared: 0,
            cycles: 0,
            room: FrameRoom::new(alloc),
        }
    }

    /// Compares a frame that was read with the one that the run gives. Returns the first
    /// difference, or None. A Run frame is shown to the audience before the difference is looked
    /// for, so the reports count the cycle that departs. After an error the recording must not be
    /// used.
    pub fn take<J: Job, P: Pool<J>>(
        &mut self,
        recording: &mut Recording<J>,
        pool: &mut P,
        view: FrameView,
        bytes: &[u8],
        audience: &mut Audience,
    ) -> Result<Option<Difference>, AllocError>
        requires behind { (given : List Input) × IsEngineAfter J.meaning recording.old given }
        requires comes { (read : FrameValue) × IsFrameSpelling view read bytes.now
            × CanCome recording.old.engine.cycles (length recording.old.profile.events) read }
        requires placed { IsPlaced view.place recording.old.profile }
        requires few { self.old.compared < 4294967295 }
        requires few_cycles { self.old.cycles < 4294967295 }
        ensures apart { IfOk result (λ apart. (given : List Input) (read : FrameValue)
            → IsEngineAfter J.meaning recording.old given → IsFrameSpelling view read bytes.now
            → apart ≡ frame_difference self.old.compared read
            (rerun_frame J.meaning recording.old.profile given read)) }
        ensures behind { OnOk result ((given : List Input) (read : FrameValue)
            → IsEngineAfter J.meaning recording.old given → IsFrameSpelling view read bytes.now
            → IsEngineAfter J.meaning recording.new (given ++ input_of read)) }
        ensures profile { recording.new.profile ≡ recording.old.profile }
        ensures shown { OnOk result ((read : FrameValue) → IsFrameSpelling view read bytes.now
            → Shows (seen (λ b. life (b.vtable, b.value)) audience.old)
            (seen (λ b. life (b.vtable, b.value)) audience.new) (run_of read)) }
        ensures compared { OnOk result (self.new.compared ≡ self.old.compared + 1) }
        ensures cycles { OnOk result ((read : FrameValue) → IsFrameSpelling view read bytes.now
            → self.new.cycles ≡ self.old.cycles + length (run_of read)) }
    {
        let given = self.room.give(recording, pool, view, bytes)?;
        let compared = self.room.compare(view, bytes, given)?;
        self.show(recording.alloc(), &compared.read, audience)?;
        let difference = compared.difference(self.compared);
        self.compared += 1;
        let FramePair { read, .. } = compared;
        self.room.take_back(recording, read);
        Ok(difference)
    }

    /// Counts a Run frame and shows it to the audience. It ignores other frames.
    fn show(
        &mut self,
        alloc: Global,
        frame: &Frame,
        audience: &mut Audience,
    ) -> Result<(), AllocError>
        requires { self.old.cycles < 4294967295 }
        ensures shown { OnOk result (Shows (seen (λ b. life (b.vtable, b.value)) audience.old)
            (seen (λ b. life (b.vtable, b.value)) audience.new) (run_of frame.now)) }
        ensures cycles { self.new.cycles ≡ self.old.cycles + length (run_of frame.now) }
        ensures compared { self.new.compared ≡ self.old.compared }
    {
        let Frame::Run(run) = frame else {
            return Ok(());
        };
        self.cycles += 1;
        audience.show(alloc, run)
    }
}
