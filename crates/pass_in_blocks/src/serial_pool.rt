//! The pool without threads of its own.

use crate::pass_end::finish_pass;
use job::{Job, PassDone, PassRef, PassRoom, Pool, PoolFault};

/// Runs the blocks of a pass in order on the caller's thread.
#[derive(Drop)]
pub struct SerialPool;

impl<J: Job> Pool<J> for SerialPool {
    fn run_pass(
        &mut self,
        pass: &PassRef<'_, J>,
        room: &mut PassRoom<J::Element, J::Part>,
    ) -> Result<PassDone<J::Element, J::Part>, PoolFault> {
        finish_pass(pass, Vec::new(room.alloc()), room)
    }
}
