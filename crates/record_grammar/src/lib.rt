//! The binary record: how it is spelled, and how bytes are judged from left to right. Its types
//! are shared by the crates that read a record (record_view) and that write one (record_codec).
#![tactic(auto)]

mod item;
mod limits;
mod place;
mod record_fault;
pub mod record_laws;

pub use item::Item;
pub use limits::Limits;
pub use place::{Layout, Place};
pub use record_fault::{Reason, RecordFault};
