//! The traits of jobs and pools: cyclic applications over a container of elements, the pools that
//! run their passes, the blocks of a pass, what a pool is given (`PassRef`) and the memory it
//! keeps (`PassRoom`).
//!
//! A cycle of a job is a sequential begin (`prepare`), 1 to 8 passes that run each element by
//! itself, and a sequential end (`conclude`). Each call equals a function of its arguments. From
//! these functions `specs/Pass.antt` defines one pass and `specs/Cycle.antt` one cycle. Neither
//! mentions workers, so every pool must return the same result, whatever its threads and their
//! order.
#![tactic(auto)]

mod block_sizes;
pub mod event_cache;
mod job;
mod job_results;
mod pass;
mod pass_room;
mod pool;

pub use block_sizes::{block_count, block_size};
pub use job::Job;
pub use job_results::{BadParam, Conclusion, JobFault, JobStart};
pub use pass::{PassDone, PassRef, PoolFault};
pub use pass_room::PassRoom;
pub use pool::Pool;
