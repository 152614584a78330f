//! Bytes in and out: shelves, whose slots are read, and sinks, which are written, over files and
//! streams and in memory with planned failures. The commands take any shelf and any sink, so a
//! test can run them on memory and let chosen calls fail.
#![tactic(auto)]

mod bounded_read;
mod dir_shelf;
mod discard;
mod failure;
mod faults;
mod mem_shelf;
mod mem_sink;
mod planned_calls;
mod read_memory;
mod reserved_push;
mod retries;
mod shelf;
mod sink;
pub mod sink_buffer;
mod slots;
mod std_sink;
mod text_shelf;
mod whole_write;

pub use bounded_read::{PIECE, TooLong, read_limited};
pub use dir_shelf::DirShelf;
pub use discard::Discard;
pub use failure::{Failure, Stopped};
pub use faults::{ShelfFailed, SinkFailed};
pub use mem_shelf::{MemFile, MemFiles, MemShelf};
pub use mem_sink::MemSink;
pub use planned_calls::{FailList, PlannedCalls};
pub use reserved_push::push_within;
pub use retries::read_with_retries;
pub use shelf::Shelf;
pub use sink::Sink;
pub use slots::Slots;
pub use std_sink::StdSink;
pub use text_shelf::TextShelf;
pub use whole_write::write_all;
