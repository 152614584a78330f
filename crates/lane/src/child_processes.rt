//! Child processes, and their outputs as the slots of a shelf.
//!
//! `Spawner` is the trait of what starts children, `ProcessSpawner` starts real ones, and
//! `MemSpawner` replays scripts in tests. `ErrorLine` makes lines of what a child writes to its
//! standard error. `ChildGuard` ends real children if a signal ends this process, and `ChildFault` is
//! what the system told of one that failed.

mod child_fault;
mod child_guard;
mod child_shelf;
mod error_line;
mod error_pipes;
mod mem_spawner;
mod process_spawner;
mod spawn_failed;
mod spawner;

pub use child_fault::ChildFault;
pub use child_shelf::ChildShelf;
pub use error_line::ErrorLine;
pub use mem_spawner::{MemSpawner, Script, Scripts};
pub use process_spawner::ProcessSpawner;
pub use spawn_failed::SpawnFailed;
pub use spawner::Spawner;
