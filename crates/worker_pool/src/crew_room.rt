//! The value from which a crew is started.
use crate::task::Task;
use job::Job;
use std::alloc::{AllocError, Global};
use tickets::Office;

/// The value from which a crew is started. To start one, call a function over `B: OfficeName` at
/// `Brand`. The ghosts of that call are `record { table = room_name room }`, which names the room
/// in the types of the crew.
#[derive(Drop)]
pub struct CrewRoom<J: Job> {
    pub(crate) office: Office<Task<J>>,
}

impl<J: Job> CrewRoom<J> {
    /// A room for one crew.
    pub fn new(alloc: Global) -> Result<CrewRoom<J>, AllocError> {
        Ok(CrewRoom {
            office: Office::new(alloc)?,
        })
    }
}
