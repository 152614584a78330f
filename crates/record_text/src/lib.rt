//! Records and summaries as text, line by line, in a buffer of lines.
//!
//! Each function appends to a text, and `specs/` defines what it appends. A frame is printed from
//! its view and its bytes, so no value is made of it.
#![tactic(auto)]

mod frame_lines;
mod header_lines;
mod hex_digits;
mod line_buffer;
mod put_text;
mod show_part;
mod summary_lines;

pub use frame_lines::put_frame_lines;
pub use header_lines::put_header_lines;
pub use put_text::{put_hex_digits, put_number, put_number_line, put_signed, put_str};
pub use show_part::ShowPart;
pub use summary_lines::{Summary, put_salvaged_line, put_summary_lines};
