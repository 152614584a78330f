//! A pass block by block: runs one block, sums its draws, and makes the result of a pass from the
//! results of blocks. It is apart from `worker_pool`, since it is the same with and without
//! threads.
//!
//! A block is `job::block_size` neighbouring elements; the last block may be shorter. `run_block`
//! runs one. `finish_pass` makes the result of the pass from the blocks that workers ran, and runs
//! the others itself. Neither depends on threads.
#![tactic(auto)]

mod block_answer;
mod block_run;
mod draws;
mod pass_end;
mod serial_pool;
mod show_block;

pub use block_answer::{BlockAnswer, BlockDone, BlockResult, BlockResults};
pub use block_run::run_block;
pub use draws::draw_sums;
pub use pass_end::finish_pass;
pub use serial_pool::SerialPool;
