//! Copies that have sent nothing yet, and how they are made.
ghost use Rattle.std.specs.Prelude.{◌≡◌, ◌+◌, ◌<◌, ◌≤◌, ◌∷◌, ◌++◌, [], length};
ghost use Rattle.std.specs.Prelude.{IfOk, OnOk, None, false};
ghost use Rattle.std.specs.List.{range_with_len};
ghost use Rattle.twins.specs.TwinFrames.{HasMade};
ghost use Rattle.twins.specs.TwinCopies.{AreCopies};

use crate::push_item::push;
use crate::taker::Intake;
use crate::twin::Twin;
use crate::{Tamper, TwinRun};
use cycle_engine::Engine;
use frame_queue::{FrameQueue, Sender};
use job::Job;
use std::alloc::{AllocError, Global};

/// Copies of a run, with their queues and the ends from which their rows are taken.
#[derive(Drop)]
pub(crate) struct TwinCopies<J: Job> {
    pub(crate) queues: Vec<FrameQueue>,
    pub(crate) twins: Vec<Twin<J>>,
    pub(crate) intakes: Vec<Intake>,
}

impl<J: Job> TwinCopies<J> {
    /// This number of copies. None of them has sent anything.
    pub(crate) fn new<T: Tamper>(
        alloc: Global,
        run: &TwinRun<T>,
        copies: u32,
    ) -> Result<TwinCopies<J>, AllocError>
        requires { J.meaning.bad_param run.now.profile.params (length run.now.profile.events)
            ≡ None }
        ensures { IfOk result (AreCopies J.meaning run.now.profile run.now.inputs
            (T.altered run.now.tamper) copies) }
    {
        let mut all = TwinCopies {
            queues: Vec::new(alloc),
            twins: Vec::new(alloc),
            intakes: Vec::new(alloc),
        };
        'copies: for copy in 0..copies {
            all.add(alloc, run, copy)?;
        }
        Ok(all)
    }

    /// Adds the copy of this number.
    fn add<T: Tamper>(
        &mut self,
        alloc: Global,
        run: &TwinRun<T>,
        copy: u32,
    ) -> Result<(), AllocError>
        requires good { J.meaning.bad_param run.now.profile.params
            (length run.now.profile.events) ≡ None }
        requires copies { AreCopies J.meaning run.now.profile run.now.inputs
            (T.altered run.now.tamper) copy self.old }
        ensures { OnOk result (AreCopies J.meaning run.now.profile run.now.inputs
            (T.altered run.now.tamper) (copy + 1) self.new) }
    {
        let (queue, sender, receiver) = FrameQueue::new(alloc)?;
        let twin = begin(alloc, run, copy, sender)?;
        push(&mut self.queues, queue)?;
        push(&mut self.twins, twin)?;
        push(&mut self.intakes, Intake { receiver, rows: 0 })?;
        Ok(())
    }
}

/// A copy that has sent nothing.
fn begin<J: Job, T>(
    alloc: Global,
    run: &TwinRun<T>,
    copy: u32,
    sender: Sender,
) -> Result<Twin<J>, AllocError>
    requires good { J.meaning.bad_param run.now.profile.params (length run.now.profile.events)
        ≡ None }
    ensures engine { IfOk result (λ twin. HasMade J.meaning run.now.profile run.now.inputs 0
        twin.engine) }
    ensures rest { IfOk result (λ twin. twin ≡ record {
      engine = twin.engine;
      sender = sender;
      copy = copy;
      number = 0;
      failed = false;
    }) }
{
    let events = run.profile.events.len() as u16;
    let Ok(job) = J::make(&run.profile.params, events) else {
        unreachable!()
    };
    let engine = Engine::start(alloc, job, &run.profile)?;
    Ok(Twin {
        engine,
        sender,
        copy,
        number: 0,
        failed: false,
    })
}
