//! Values with their limits (profiles, cycle inputs, frames, elements with their draws), lists
//! with a greatest length, containers of blocks, and spare memory for them. All other crates
//! exchange them. A limit is an invariant of its type, so no reader of a value checks it again.
#![tactic(auto)]

mod block_walk;
mod bytes64;
mod clear_draws;
mod container;
mod container_blocks;
mod drawn_block;
mod drawn_blocks;
mod drawn_elements;
mod event;
mod event_name;
mod first_element;
mod format;
mod frames;
mod job_kind;
pub mod laws;
mod limited;
mod lists;
mod profile;
pub mod put;
mod refused_at;
mod sample;
mod spares;
mod walk;

pub use block_walk::BlockWalk;
pub use bytes64::Bytes64;
pub use container::Container;
pub use drawn_block::DrawnBlock;
pub use drawn_elements::DrawnElements;
pub use event::{EventSpec, Policy};
pub use event_name::EventName;
pub use format::{Format, reduce_to_format};
pub use frames::{CycleInput, DrawnElement, Frame, Outcome, RunFrame};
pub use job_kind::JobKind;
pub use limited::Limited;
pub use lists::{Bytes, Elements, Events, Params, Samples};
pub use profile::Profile;
pub use refused_at::{Phase, RefusedAt};
pub use sample::Sample;
pub use spares::Spares;
pub use walk::Walk;
