//! Two copies of a run of the heavy job, each on its own thread.
ghost use Rattle.std.specs.Prelude.{◌≡◌, ◌≤◌, length, IfOk};
ghost use Rattle.det_values.specs.Values.{ProfileValue};
ghost use Rattle.twins.specs.TwinFrames.{AreKnown};

use copies::{Difference, Verdict};
use det_values::{CycleInput, Events, Format, Frame, Params, Profile, Samples};
use job::Job;
use job_heavy::Heavy;
use std::alloc::{AllocError, Global};
use std::sync::Wait;
use std::sync::atomic::{AtomicU64, Ordering};
use std::test::Fail;
use std::thread::Threads;
use twins::{FlipTamper, Inputs, Tamper, TwinRun, run_twins};

const CYCLES: u32 = 200;

/// Inputs without a time and without samples.
fn inputs(alloc: Global, count: u32) -> Result<Inputs, AllocError>
    requires { count ≤ 1000 }
    ensures { IfOk result (λ inputs. (profile : ProfileValue) → AreKnown profile inputs) }
{
    let mut inputs = Inputs::new(alloc);
    'inputs: for _ in 0..count {
        inputs.push(CycleInput {
            time: None,
            samples: Samples::new(alloc),
        })?;
    }
    Ok(inputs)
}

/// A run of five elements. Its output in each cycle is their number in 8 bytes.
fn run_of(alloc: Global, tamper: Watch) -> Result<TwinRun<Watch>, AllocError>
    ensures { IfOk result (λ run. AreKnown run.profile run.inputs) }
{
    let mut params = Params::new(alloc);
    params.push(5)?;
    Ok(TwinRun {
        profile: Profile {
            format: Format::Two,
            job: 9,
            seed: 7,
            cycle_time: 1000,
            params,
            events: Events::new(alloc),
        },
        inputs: inputs(alloc, CYCLES)?,
        tamper,
    })
}

/// The verdict on two copies of a run, or None if the job refuses its parameters.
fn verdict_on<R: Threads + Wait + Sync>(
    rt: &R,
    alloc: Global,
    run: &TwinRun<Watch>,
) -> Result<Option<Verdict>, AllocError>
    requires { AreKnown run.now.profile run.now.inputs }
{
    if Heavy::make(&run.profile.params, run.profile.events.len() as u16).is_err() {
        return Ok(None);
    }
    Ok(Some(run_twins::<Heavy, Watch, R>(rt, alloc, run, 2)?))
}

/// The most looks of a copy for the other one.
const MOST_LOOKS: u32 = 100_000_000;

/// Flips a bit, counts the frames made, and holds each copy at frame 3 until the other is there, up
/// to a limit.
#[derive(Drop)]
struct Watch {
    flip: FlipTamper,
    frames: AtomicU64,
    /// The number of copies that came to frame 3, and of those that saw both there.
    came: AtomicU64,
    met: AtomicU64,
}

impl Watch {
    fn new(flip: FlipTamper) -> Watch {
        Watch {
            flip,
            frames: AtomicU64::new(0),
            came: AtomicU64::new(0),
            met: AtomicU64::new(0),
        }
    }

    fn meet(&self) {
        self.came.fetch_add(1, Ordering::SeqCst);
        'looks: for _ in 0..MOST_LOOKS {
            if self.came.load(Ordering::SeqCst) == 2 {
                self.met.fetch_add(1, Ordering::SeqCst);
                return;
            }
        }
    }

    fn have_met(&self) -> bool {
        self.met.load(Ordering::SeqCst) == 2
    }

    fn frames(&self) -> u64 {
        self.frames.load(Ordering::SeqCst)
    }
}

impl Tamper for Watch {
    ghost use Rattle.twins.specs.Tampers.{flipped_at};

    ghost altered = { λ watch copy number frame.
        flipped_at watch.flip.copy watch.flip.number copy number frame };

    fn alter(
        &self,
        alloc: Global,
        copy: u32,
        number: u32,
        frame: Frame,
    ) -> Result<Frame, AllocError> {
        self.frames.fetch_add(1, Ordering::SeqCst);
        if number == 3 {
            self.meet();
        }
        self.flip.alter(alloc, copy, number, frame)
    }
}

/// Frame 107 belongs to cycle 105, and is the 108th taken. A queue has 32 places, so each of the
/// two copies makes at most 140 of its 204 frames.
#[test]
fn copies_meet_and_end_behind_a_difference(rt: HostRuntime) -> Result<(), Fail> {
    let alloc = rt.alloc();
    let run = run_of(alloc, Watch::new(FlipTamper::new(1, 107)))?;
    let verdict = verdict_on(&rt, alloc, &run)?;
    let wanted = Verdict::Differ {
        copy: 1,
        at: Difference::Output(105),
    };
    assert_eq!(rt; verdict, Some(wanted));
    assert!(rt; run.tamper.have_met());
    assert!(rt; run.tamper.frames() <= 280);
    Ok(())
}
