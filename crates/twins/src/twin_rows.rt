//! How a copy sends its rows. `next_frame` makes their frames.
ghost use Rattle.std.specs.Prelude.{◌≡◌, ◌≤◌, ◌<◌, ◌+◌, length, take, IfOk, OnOk, Some, false};
ghost use Rattle.cycle_engine.specs.Frames.{frames};
ghost use Rattle.twins.specs.TwinFrames.{AreKnown, HasMade, IsTwin, IsRow};

use crate::twin::Twin;
use crate::{Tamper, TwinRun};
use frame_queue::{FrameQueue, Row};
use job::Job;
use std::alloc::{AllocError, Global};
use std::sync::Wait;

impl<J: Job> Twin<J> {
    /// Makes and sends rows while the queue has a place, up to the last row. If memory runs out,
    /// the copy stops sending. Returns the copy.
    pub(crate) fn send_rows<T: Tamper, R: Wait>(
        mut self,
        rt: &R,
        alloc: Global,
        run: &TwinRun<T>,
        queue: &FrameQueue,
    ) -> Twin<J>
        requires known { AreKnown run.now.profile run.now.inputs }
        requires twin { IsTwin J.meaning run.now.profile run.now.inputs
            (T.altered run.now.tamper) queue.now self }
        ensures twin { IsTwin J.meaning run.now.profile run.now.inputs
            (T.altered run.now.tamper) queue.now result }
        ensures copy { result.copy ≡ self.copy }
    {
        let pace = queue.pace();
        pace.sender_comes();
        'rows: for _ in 0..run.rows() {
            if self.failed || self.number >= run.rows() || !pace.wait_for_place(rt) {
                break;
            }
            self.send_next(rt, alloc, run, queue);
        }
        pace.sender_leaves();
        self
    }

    /// Makes and sends the next row.
    fn send_next<T: Tamper, R: Wait>(
        &mut self,
        rt: &R,
        alloc: Global,
        run: &TwinRun<T>,
        queue: &FrameQueue,
    )
        requires known { AreKnown run.now.profile run.now.inputs }
        requires more { self.old.number < length run.now.inputs + 4 }
        requires few { self.old.number < 1000004 }
        requires going { self.old.failed ≡ false }
        requires twin { IsTwin J.meaning run.now.profile run.now.inputs
            (T.altered run.now.tamper) queue.now self.old }
        ensures twin { IsTwin J.meaning run.now.profile run.now.inputs
            (T.altered run.now.tamper) queue.now self.new }
        ensures copy { self.new.copy ≡ self.old.copy }
    {
        match self.next_row(alloc, run) {
            Ok(row) => {
                queue.send(rt, &mut self.sender, row);
                self.number += 1;
            }
            Err(AllocError) => self.failed = true,
        }
    }

    /// The row with the number that the copy has reached. After an error its engine must not be
    /// used.
    fn next_row<T: Tamper>(&mut self, alloc: Global, run: &TwinRun<T>) -> Result<Row, AllocError>
        requires known { AreKnown run.now.profile run.now.inputs }
        requires more { self.old.number < length run.now.inputs + 4 }
        requires made { HasMade J.meaning run.now.profile run.now.inputs self.old.number
            self.old.engine }
        ensures row { IfOk result (λ row. IsRow J.meaning run.now.profile run.now.inputs
            (T.altered run.now.tamper self.old.copy) self.old.number row) }
        ensures made { OnOk result (HasMade J.meaning run.now.profile run.now.inputs
            (self.old.number + 1) self.new.engine) }
        ensures keeps { self.new ≡ record self.old { engine = self.new.engine } }
    {
        let frame = self.next_frame(alloc, run)?;
        let frame = run.tamper.alter(alloc, self.copy, self.number, frame)?;
        Ok(Row {
            number: self.number,
            frame,
        })
    }
}
