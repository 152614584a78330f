//! Runs the job of a manifest in copies over a stimulus, and compares their frames.
ghost use Rattle.std.specs.Prelude.{◌≡◌, ◌≢◌, ◌≤◌, ◌<◌, length, IfOk, None, Err};
ghost use Rattle.std.specs.List.{All};
ghost use Rattle.det_io.specs.Shelf.{Asks};
ghost use Rattle.manifest.specs.Profiles.{profile_of};
ghost use Rattle.jobs.specs.Kinds.{bad_param, of_kind};
ghost use Rattle.run_setup.specs.Setup.{IsGood};
ghost use Rattle.twins.specs.TwinVerdict.{twin_verdict};
ghost use Rattle.twin_cli.specs.FoundVerdict.{Finds, Found};
ghost use Rattle.twin_cli.specs.Outcome.{twin_outcome_by_kind};
ghost use Rattle.twin_cli.specs.Words.{twins_value};

use crate::inputs::{inputs_of, read_text};
use crate::options::{Flip, Twins};
use crate::twin_answer::TwinAnswer;
use copies::Verdict;
use det_io::Shelf;
use det_values::{Bytes, Frame, JobKind};
use jobs::{Bank, Cloud, Guard};
use manifest::Manifest;
use run_setup::read_setup;
use std::alloc::{AllocError, Global};
use std::sync::Wait;
use std::thread::Threads;
use twins::{FlipTamper, Tamper, TwinRun, run_twins};

/// Flips a bit of one copy, if the options ask for it.
#[derive(Clone, Copy, Drop)]
struct MaybeFlip {
    flip: Option<Flip>,
}

impl Tamper for MaybeFlip {
    ghost use Rattle.twin_cli.specs.Outcome.{alteration_by};

    ghost altered = { λ tamper. alteration_by tamper.flip };

    fn alter(
        &self,
        alloc: Global,
        copy: u32,
        number: u32,
        frame: Frame,
    ) -> Result<Frame, AllocError> {
        match self.flip {
            None => Ok(frame),
            Some(flip) => FlipTamper::new(flip.copy, flip.number).alter(alloc, copy, number, frame),
        }
    }
}

/// Runs the job of a kind in copies and compares their frames.
fn run_by_kind<T: Tamper, R: Threads + Wait + Sync>(
    rt: &R,
    alloc: Global,
    kind: JobKind,
    run: &TwinRun<T>,
    copies: u32,
) -> Result<Verdict, AllocError>
    requires some { 2 ≤ copies }
    requires few { copies ≤ 8 }
    requires good { bad_param kind run.now.profile.params (length run.now.profile.events) ≡ None }
    requires known { All (λ input. All (λ s. s.event < length run.now.profile.events)
        input.samples) run.now.inputs }
    ensures { IfOk result (λ verdict. of_kind (λ s g e l p m. verdict
        ≡ twin_verdict m run.now.profile run.now.inputs (T.altered run.now.tamper) copies) kind) }
{
    match kind {
        JobKind::Bank => run_twins::<Bank, T, R>(rt, alloc, run, copies),
        JobKind::Cloud => run_twins::<Cloud, T, R>(rt, alloc, run, copies),
        JobKind::Guard => run_twins::<Guard, T, R>(rt, alloc, run, copies),
    }
}

/// The verdict on copies of a manifest's run over a text.
fn compare_over<R: Threads + Wait + Sync>(
    rt: &R,
    alloc: Global,
    twins: &Twins<'_>,
    setup: &Manifest,
    text: Bytes,
) -> Result<Verdict, TwinAnswer>
    requires { IsGood setup.now }
    ensures finds { Finds result
        (twin_outcome_by_kind (twins_value twins.now) setup.now.kind
        (profile_of setup.now 0) text) }
    ensures reads_nothing { result ≢ Err TwinAnswer.ReadFault }
    ensures writes_nothing { result ≢ Err TwinAnswer.WriteFault }
    ensures words { result ≢ Err TwinAnswer.BadWords }
{
    let Ok(profile) = setup.profile(alloc, 0) else {
        return Err(TwinAnswer::OutOfMemory);
    };
    let events = profile.events.len() as u16;
    let inputs = match inputs_of(alloc, text, events) {
        Ok(inputs) => inputs,
        Err(stopped) => return Err(TwinAnswer::from(stopped)),
    };
    let tamper = MaybeFlip {
        flip: twins.options.flip,
    };
    let run = TwinRun {
        profile,
        inputs,
        tamper,
    };
    match run_by_kind(rt, alloc, setup.kind(), &run, twins.copies) {
        Ok(verdict) => Ok(verdict),
        Err(_) => Err(TwinAnswer::OutOfMemory),
    }
}

/// Reads the manifest and the stimulus, runs the copies and compares them. The stimulus is opened
/// only after the manifest is accepted.
pub(crate) fn find_verdict<S: Shelf, R: Threads + Wait + Sync>(
    rt: &R,
    alloc: Global,
    twins: &Twins<'_>,
    shelf: &mut S,
) -> Result<Verdict, TwinAnswer>
    ensures { Found (twins_value twins.now) (S.sees shelf.old) (S.sees shelf.new) result }
{
    let setup = match read_setup(alloc, twins.manifest, twins.options.strict, shelf) {
        Ok(setup) => setup,
        Err(stopped) => return Err(TwinAnswer::from(stopped)),
    };
    let text = match read_text(alloc, twins.stimulus, shelf) {
        Ok(text) => text,
        Err(stopped) => return Err(TwinAnswer::from(stopped)),
    };
    compare_over(rt, alloc, twins, &setup, text)
}
