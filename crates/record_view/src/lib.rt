//! Views of a record's items: offsets into the bytes that hold a header, a frame's input, samples,
//! elements, output or refusal, found by skipping fields; and equal items. An item is checked once
//! against the grammar, and nothing of it is copied. No function takes memory.
#![tactic(auto)]

mod equal;
mod field;
mod header;
mod input;
mod next_place;
mod number;
mod opening;
mod partial;
mod parts;
mod resume;
mod skip;
mod stop;
mod view;
pub mod view_laws;
mod walk;

pub use equal::are_equal_items;
pub use header::{magic, name_byte, version};
pub use next_place::{events_at, format_at, place_after};
pub use number::{i64_at, u8_at, u16_at, u64_at};
pub use partial::{Partial, PartialRun, Scan, Step};
pub use parts::{view_elements, view_init_elements, view_output, view_refusal, view_samples};
pub use resume::view_item;
pub use stop::Stop;
pub use view::{FrameKind, FrameView, InputView, ItemKind, ItemSpan, ItemView, OutcomeView};
pub use walk::{ElementWalk, SampleWalk};
