//! Inputs and runs decoded from views into memory that is reused from frame to frame.
ghost use Rattle.std.specs.Prelude.{◌≡◌, ℕ, OnOk};
ghost use Rattle.det_values.specs.declared.frames.Frame.{Frame};
ghost use Rattle.det_values.specs.declared.frames.RunFrame.{RunFrame as RunValue};
ghost use Rattle.record_view.specs.Shows.{IsFrameSpelling};
ghost use Rattle.record_codec.specs.Filled.{InputFilled, RunFilled};
ghost use Rattle.record_codec.specs.Parts.{ShowsRun, FewElements};

use crate::fill_run;
use det_values::{CycleInput, Outcome, RunFrame};
use record_grammar::Place;
use record_view::{FrameKind, FrameView, InputView, OutcomeView, events_at};
use std::alloc::{AllocError, Global};
use std::mem::swap;

/// Replaces `input` by that of a Run frame, and reuses its memory. Returns false for a frame of
/// another kind. After `AllocError` a part of the samples may be there.
pub fn fill_input(input: &mut CycleInput, view: FrameView, bytes: &[u8]) -> Result<bool, AllocError>
    requires { (frame : Frame) × IsFrameSpelling view frame bytes.now }
    ensures { (frame : Frame) → IsFrameSpelling view frame bytes.now
        → InputFilled result frame input.new }
{
    match view.kind {
        FrameKind::Run { input: part, .. } => {
            fill_run::fill_input(input, view.place, part, bytes)?;
            Ok(true)
        }
        _ => Ok(false),
    }
}

/// Holds the run of one Run frame after another, in the same memory.
#[derive(Drop)]
pub struct RunRoom {
    alloc: Global,
    run: RunFrame,
    /// An outcome of the other kind, finished or refused, which keeps its memory for the next one.
    spare: Outcome,
}

impl RunRoom {
    ghost use Rattle.record_codec.specs.Filled.{run_in};

    /// An empty run. It takes no memory yet.
    pub fn new(alloc: Global) -> RunRoom {
        RunRoom {
            alloc,
            run: fill_run::empty_run(alloc),
            spare: fill_run::empty_outcome(alloc),
        }
    }

    /// Replaces the run by that of a Run frame. Returns false for a frame of another kind. After
    /// `AllocError` the run is that of no frame.
    pub fn fill(&mut self, view: FrameView, bytes: &[u8]) -> Result<bool, AllocError>
        requires { (frame : Frame) × IsFrameSpelling view frame bytes.now }
        ensures { (frame : Frame) → IsFrameSpelling view frame bytes.now
            → RunFilled result frame self.new }
    {
        let _events = events_at(view.place);
        match view.kind {
            FrameKind::Run { input, outcome } => {
                self.prepare(outcome);
                self.fill_parts(view.place, input, outcome, bytes)?;
                Ok(true)
            }
            _ => Ok(false),
        }
    }

    /// Swaps in the spare outcome if the next one is of its kind.
    fn prepare(&mut self, next: OutcomeView) {
        let is_refused = matches!(next, OutcomeView::Refused { .. });
        let was_refused = matches!(self.run.outcome, Outcome::Refused(_));
        if is_refused != was_refused {
            swap(&mut self.run.outcome, &mut self.spare);
        }
    }

    fn fill_parts(
        &mut self,
        place: Place,
        input: InputView,
        outcome: OutcomeView,
        bytes: &[u8],
    ) -> Result<(), AllocError>
        requires shows { (len : ℕ) × (run : RunValue)
            × ShowsRun place input outcome len bytes.now run }
        requires few { FewElements outcome }
        ensures { OnOk result ((len : ℕ) (run : RunValue)
            → ShowsRun place input outcome len bytes.now run → run_in self.new ≡ run) }
    {
        fill_run::fill_input(&mut self.run.input, place, input, bytes)?;
        fill_run::fill_outcome(self.alloc, &mut self.run.outcome, place, outcome, bytes)
    }

    /// The run that was decoded last.
    pub fn run(&self) -> &RunFrame
        ensures { result.now ≡ run_in self.now }
    {
        &self.run
    }
}
