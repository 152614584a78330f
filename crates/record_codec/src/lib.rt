//! Encoders of headers and frames part by part (`put_..`), and values made of views in memory that
//! is kept (`fill_..`, `RunRoom`). Views themselves are in record_view, which takes no memory.
#![tactic(auto)]

mod decode;
mod elements;
mod encode;
mod fill_run;
mod header_stop;
mod put_field;
mod put_frame;
mod put_header;
mod read_header;
mod run_room;

pub use decode::{decode_profile, frame_of};
pub use encode::{encode_frame, encode_header, encode_init_head, encode_run, encode_run_ends};
pub use record_grammar::{Item, Layout, Limits, Place, Reason, RecordFault};
pub use run_room::{RunRoom, fill_input};
