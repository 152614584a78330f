//! Finds the first place where a record isn't what its inputs give, by pairs of a frame that was
//! read and the frame that its input gives. It writes nothing.

mod check;
mod frame_checker;
mod frame_pair;
mod frame_room;
mod next_run;

pub use check::check_run;
pub use frame_pair::FramePair;
pub use frame_room::FrameRoom;
