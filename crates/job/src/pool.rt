//! The trait of pools. It is apart from their crates, so that an engine runs on any of them.

use crate::{Job, PassDone, PassRef, PassRoom, PoolFault};

/// Runs the passes of a job, on one thread or several.
pub trait Pool<J: Job> {
    ghost use Rattle.job.specs.Passes.{IsReady, IsAnswer};

    /// Runs one pass over all elements. The result is that of one thread that takes them in order,
    /// so of several elements that refuse the first is reported. The pool takes memory from `room`
    /// while there is some, and returns to it the memory that it no longer needs.
    fn run_pass(
        &mut self,
        pass: &PassRef<'_, J>,
        room: &mut PassRoom<J::Element, J::Part>,
    ) -> Result<PassDone<J::Element, J::Part>, PoolFault>
        requires { IsReady J.meaning J.Covers J.Own J.Fit pass.now }
        ensures { IsAnswer J.meaning J.Covers J.Own pass.now result };
}
