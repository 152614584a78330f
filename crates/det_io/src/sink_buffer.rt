//! A buffer in front of a sink, which gathers short pieces into long writes. `Front` holds the
//! pieces, and `SinkBuffer` makes a front a `Sink` again.

mod buffer;
mod front;
mod gather;
mod held_bytes;
mod start;

pub use buffer::SinkBuffer;
pub use front::Front;
pub use gather::Gather;
pub use held_bytes::{BUFFER_ROOM, buffer_room};
pub use start::Start;
