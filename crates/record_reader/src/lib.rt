//! Records in slots: opened and read frame by frame, salvaged, digested, and their runs and
//! refusals counted.
#![tactic(auto)]

mod digest_sink;
mod frame_reader;
pub mod item_reader;
mod kind_counts;
mod salvage;
mod salvage_items;

pub use digest_sink::DigestSink;
pub use frame_reader::{FrameReader, OpenRecord, open_record};
pub use kind_counts::{begins_runs, runs_of};
pub use salvage::Salvaged;
pub use salvage_items::{salvage_record, settle_fault};
