//! The pool of several threads, which are kept over a run, pass a gate and claim blocks, with laws
//! of their steps and schedules.
//!
//! The workers claim blocks of elements on a table of words. Whatever their order, the result is
//! that of one thread that takes the elements in order. Each element has its own random numbers,
//! and the parts are joined in the order of the elements. Of several refusals, that of the first
//! element is returned.
//!
//! A crew keeps its threads from pass to pass. If a kept thread has no result for a block in time,
//! the caller runs the block itself. So no pass depends on the progress of another thread.
#![tactic(auto)]

mod bench;
mod crew;
mod crew_room;
mod gate;
pub mod laws;
mod link;
mod links;
mod messages;
mod plays;
mod pool_view;
mod seat;
mod seats;
mod start;
mod table_steps;
mod task;
mod work;

pub use bench::Bench;
pub use crew::Crew;
pub use crew_room::CrewRoom;
pub use gate::{AnyGate, Gate, MeetGate, NapGate, NoGate};
pub use link::Link;
pub use messages::{Reply, ReplyFits, Work, WorkFits};
pub use pool_view::{Mark, PoolEntry, PoolView};
pub use seat::{PassSeat, PassTable, PoolRule};
pub use task::{OwnedPass, Task};
pub use work::work_blocks;
