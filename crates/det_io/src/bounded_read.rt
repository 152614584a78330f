//! Reads a whole slot into memory, up to a limit: for manifests and stimuli.
ghost use Rattle.std.specs.Prelude.{◌≡◌, ℕ, ◌<◌, ◌≤◌, ◌↔◌, ◌+◌, List, length, IfOk, IsErrOf};
ghost use Rattle.std.specs.Prelude.{Some};
ghost use Rattle.det_io.specs.Shelf.{Reads, IsAtEnd};
ghost use Rattle.det_io.specs.Traffic.{ShelfTraffic, shelf_run, failure_in};

use crate::{Failure, Slots, Stopped};
use std::alloc::Global;

/// The slot has more bytes than the limit.
#[derive(Clone, Copy, Debug, PartialEq, Eq, Drop)]
pub struct TooLong;

/// The size of the buffer of one read, in bytes.
pub const PIECE: usize = 4096;

/// Reads the rest of a slot, or refuses it as `TooLong` if it has more than `most` bytes. Each byte
/// is read once, and no byte beyond `most` is kept.
pub fn read_limited<S: Slots>(
    alloc: Global,
    shelf: &mut S,
    slot: u32,
    most: usize,
) -> Result<Vec<u8>, Stopped<TooLong>>
    requires { slot < (S.sees shelf.old).slots }
    ensures ok { IfOk result (λ bytes. Reads (S.sees shelf.old) (S.sees shelf.new) slot bytes.items
        × IsAtEnd (S.sees shelf.new) slot × (length bytes.items ≤ most)) }
    // Whatever the result, some bytes were read. They are more than `most` exactly if the result is
    // TooLong.
    ensures read { (bytes : List ℕ) × Reads (S.sees shelf.old) (S.sees shelf.new) slot bytes
        × (IsErrOf result (Stopped.Refused (record {})) ↔ (most < length bytes)) }
    // Whatever the result, at most 4,096 bytes beyond `most` were read.
    ensures piece { (bytes : List ℕ) × Reads (S.sees shelf.old) (S.sees shelf.new) slot bytes
        × (length bytes ≤ most + 4096) }
    ensures traffic { ShelfTraffic (shelf_run S.sees S.stays shelf.old shelf.new)
        (failure_in result) }
    ensures writes_nothing { failure_in result ≡ Some Failure.Write → ⊥ }
{
    let mut bytes = Vec::new(alloc);
    let mut buf = [0; PIECE];
    'pieces: loop {
        let n = shelf.read(slot, &mut buf)?;
        if n == 0 {
            return Ok(bytes);
        }
        // This check comes before the copy, so the last piece of a long input needs no memory.
        if n > most - bytes.len() {
            return Err(Stopped::Refused(TooLong));
        }
        bytes.extend_from_slice(&buf[..n])?;
    }
}
