//! The held bytes of a front: their memory, and their way to the sink.
ghost use Rattle.std.specs.Prelude.{◌≡◌, ◌+◌, ◌<◌, ◌≤◌, ◌++◌, [], length, take, drop};
ghost use Rattle.std.specs.Prelude.{vec_len, vec_capacity, IfOk, OnErr};
ghost use Rattle.det_io.specs.Count.{Rose};
ghost use Rattle.det_io.specs.Sink.{Same};
ghost use Rattle.det_io.specs.sink_buffer.Front.{TakesFront};

use crate::{Sink, SinkFailed};
use std::alloc::{AllocError, Global};

/// The room of a buffer, in bytes. Between calls it holds fewer.
pub const BUFFER_ROOM: usize = 65_536;

/// The memory of a buffer. It is the only allocation that a buffer needs.
pub fn buffer_room(alloc: Global) -> Result<Vec<u8>, AllocError>
    ensures none { IfOk result (λ held. held.items ≡ []) }
    ensures room { IfOk result (λ held. 65536 ≤ vec_capacity held) }
{
    Vec::with_capacity(alloc, BUFFER_ROOM)
}

/// Adds a piece after the held bytes.
pub(crate) fn hold_piece(held: &mut Vec<u8>, piece: &[u8])
    requires { vec_len held.old + length piece.now ≤ vec_capacity held.old }
    ensures items { held.new.items ≡ held.old.items ++ piece.now }
    ensures room { vec_capacity held.old ≤ vec_capacity held.new }
{
    match held.extend_from_slice(piece) {
        Ok(()) => (),
        Err(_) => unreachable!(),
    }
}

/// Drops the first `count` held bytes.
fn drop_held_front(held: &mut Vec<u8>, count: usize)
    requires { count ≤ vec_len held.old }
    ensures items { held.new.items ≡ drop count held.old.items }
    ensures room { vec_capacity held.new ≡ vec_capacity held.old }
{
    let rest = held.len() - count;
    if rest > 0 {
        held.rotate_left(count);
    }
    held.truncate(rest);
}

/// Writes the held bytes, and after them as much of the piece as there is room for, in one write.
/// It returns how many bytes of the piece that was. Bytes that the sink doesn't take stay held. If
/// the write fails, nothing has changed.
pub(crate) fn write_held_bytes<K: Sink>(
    sink: &mut K,
    held: &mut Vec<u8>,
    piece: &[u8],
) -> Result<usize, SinkFailed>
    requires some { 0 < vec_len held.old }
    requires within { vec_len held.old < 65536 }
    requires room { 65536 ≤ vec_capacity held.old }
    ensures count { IfOk result (λ n. n ≤ length piece.now) }
    ensures moves { IfOk result (λ n. 0 < length piece.now → 0 < n) }
    ensures taken { IfOk result (λ n. TakesFront (K.took sink.old) (K.took sink.new)
        (held.old.items ++ take n piece.now) held.new.items) }
    ensures none { OnErr result (Same (K.took sink.old) (K.took sink.new)) }
    ensures stays { OnErr result (held.new.items ≡ held.old.items) }
    ensures cause { OnErr result (Rose (K.faults sink.old) (K.faults sink.new)) }
    ensures counted { K.faults sink.old ≤ K.faults sink.new }
    ensures within { vec_len held.new < 65536 }
    ensures room { 65536 ≤ vec_capacity held.new }
{
    let before = held.len();
    let count = piece.len().min(BUFFER_ROOM - before);
    hold_piece(held, &piece[..count]);
    match sink.write(held.as_slice()) {
        Ok(written) => {
            drop_held_front(held, written);
            Ok(count)
        }
        Err(failed) => {
            held.truncate(before);
            Err(failed)
        }
    }
}
