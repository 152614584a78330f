//! A sink with held bytes in front of it.
ghost use Rattle.std.specs.Prelude.{◌<◌, ◌≤◌, vec_len, vec_capacity};

use crate::sink_buffer::held_bytes::{hold_piece, write_held_bytes};
use crate::sink_buffer::{BUFFER_ROOM, Gather};
use crate::{Sink, SinkFailed};

/// A piece of at least this many bytes goes straight to the sink if nothing is held.
const LONG: usize = 4_096;

/// A sink with held bytes in front of it. Its owner must write `held` to the sink at the end, or
/// those bytes are lost.
///
/// Short pieces are held until there is no room for the next one, and then go to the sink in one
/// write. A piece causes at most one write, and no allocation.
#[derive(Drop)]
pub struct Front<'a, 'r, K: Sink> {
    pub sink: &'a mut K,
    pub held: &'r mut Vec<u8>,
    pub ghost within: { vec_len held.now < 65536 },
    pub ghost has_room: { 65536 ≤ vec_capacity held.now },
}

impl<'a, 'r, K: Sink> Front<'a, 'r, K> {
    ghost use Rattle.std.specs.Prelude.{◌≡◌, ◌≤◌, [], vec_capacity};

    /// A front that holds nothing, over memory from `buffer_room`.
    pub fn new(sink: &'a mut K, held: &'r mut Vec<u8>) -> Front<'a, 'r, K>
        requires none { held.old.items ≡ [] }
        requires room { 65536 ≤ vec_capacity held.old }
        ensures same_sink { result.sink.ghost_name ≡ sink.entry.ghost_name }
        ensures sink { result.sink.now ≡ sink.old }
        ensures none { result.held.now.items ≡ [] }
    {
        Front { sink, held }
    }
}

impl<K: Sink> Gather for Front<'_, '_, K> {
    ghost name = { λ s. s.sink.ghost_name };

    ghost took = { λ s. K.took s.sink.now };

    ghost held = { λ s. s.held.now.items };

    ghost faults = { λ s. K.faults s.sink.now };

    fn gather(&mut self, piece: &[u8]) -> Result<usize, SinkFailed> {
        if piece.len() < LONG && piece.len() < BUFFER_ROOM - self.held.len() {
            hold_piece(self.held, piece);
            return Ok(piece.len());
        }
        if self.held.is_empty() {
            return self.sink.write(piece);
        }
        write_held_bytes(self.sink, self.held, piece)
    }
}
