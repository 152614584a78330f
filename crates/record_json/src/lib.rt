//! Records as JSON, a value a line: the header, each frame, and the reports on the runs.
//!
//! Each function appends to a text, and `specs/` defines what it appends. As in `record_text`, a
//! frame is printed from its view and its bytes. Elements of the built-in jobs have their numbers
//! beside their bytes.
#![tactic(auto)]

mod element_layout;
mod element_text;
mod frame_line;
mod header_line;
mod put_json;
mod reports_line;

pub use element_layout::ElementLayout;
pub use frame_line::put_json_frame;
pub use header_line::put_json_header;
pub use reports_line::put_json_reports;
