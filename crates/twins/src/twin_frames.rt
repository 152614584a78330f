//! How a copy makes the frames of the run, one after another. `send_rows` sends them.
ghost use Rattle.std.specs.Prelude.{◌≤◌, ◌<◌, ◌+◌, length, IfOk};
ghost use Rattle.twins.specs.TwinFrames.{AreKnown, IsFrame, HasMade, MakesFrame};

use crate::TwinRun;
use crate::twin::Twin;
use cycle_engine::Desk;
use det_values::Frame;
use job::Job;
use pass_in_blocks::SerialPool;
use std::alloc::{AllocError, Global};

impl<J: Job> Twin<J> {
    /// The frame with the number that the copy has reached. After an error its engine must not be
    /// used.
    pub(crate) fn next_frame<T>(
        &mut self,
        alloc: Global,
        run: &TwinRun<T>,
    ) -> Result<Frame, AllocError>
        requires known { AreKnown run.now.profile run.now.inputs }
        requires more { self.old.number < length run.now.inputs + 4 }
        requires made { HasMade J.meaning run.now.profile run.now.inputs self.old.number
            self.old.engine }
        ensures { MakesFrame J.meaning run.now.profile run.now.inputs self.old self.new result }
    {
        if self.number < 3 {
            return self.opening_frame(alloc, run);
        }
        if self.number < run.rows() - 1 {
            return self.next_run(alloc, run);
        }
        self.engine.stop();
        Ok(Frame::Terminate)
    }

    /// Register, Discover or Init.
    fn opening_frame<T>(&self, alloc: Global, run: &TwinRun<T>) -> Result<Frame, AllocError>
        requires opening { self.now.number < 3 }
        requires made { HasMade J.meaning run.now.profile run.now.inputs self.now.number
            self.now.engine }
        ensures frame { IfOk result (λ frame. IsFrame J.meaning run.now.profile run.now.inputs
            self.now.number frame) }
    {
        if self.number == 0 {
            return Ok(Frame::Register);
        }
        if self.number == 1 {
            return Ok(Frame::Discover);
        }
        Ok(Frame::Init(self.engine.shown(alloc)?))
    }

    /// Runs the next cycle and returns its frame.
    fn next_run<T>(&mut self, alloc: Global, run: &TwinRun<T>) -> Result<Frame, AllocError>
        requires known { AreKnown run.now.profile run.now.inputs }
        requires opened { 3 ≤ self.old.number }
        requires more { self.old.number < length run.now.inputs + 3 }
        requires few { self.old.number < 1000003 }
        requires made { HasMade J.meaning run.now.profile run.now.inputs self.old.number
            self.old.engine }
        ensures { MakesFrame J.meaning run.now.profile run.now.inputs self.old self.new result }
    {
        let input = run.inputs.item(self.number as usize - 3).try_clone(alloc)?;
        let frame = self
            .engine
            .cycle(&mut Desk::new(alloc), &mut SerialPool, input)?;
        Ok(Frame::Run(frame))
    }
}
