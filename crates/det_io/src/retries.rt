//! Reads and writes of std that are tried again after an interruption.
ghost use Rattle.std.specs.Prelude.{ℕ, ◌<◌, ◌≤◌, length, IfOk};

use std::io::{Error, ErrorKind, Read, Result, Write};

// The most tries of one call. A call that is interrupted each time fails.
pub(crate) const MOST_TRIES: u32 = 1000;

/// Reads bytes to the front of the buffer and returns their number. An interrupted read is tried
/// again, up to 1,000 times in all.
pub fn read_with_retries<F: Read>(reader: &mut F, buf: &mut [u8]) -> Result<usize>
    ensures { IfOk result (λ n. n ≤ length buf.old) }
{
    for _ in 0..MOST_TRIES {
        match reader.read(buf) {
            Ok(n) => return Ok(n),
            Err(error) if error.kind() == ErrorKind::Interrupted => {}
            Err(error) => return Err(error),
        }
    }
    Err(Error::from(ErrorKind::Interrupted))
}

// Writes bytes from the front of the piece and returns their number. A write that takes no byte of
// a piece that isn't empty fails.
pub(crate) fn write_with_retries<W: Write>(writer: &mut W, piece: &[u8]) -> Result<usize>
    ensures within { IfOk result (λ n. n ≤ length piece.now) }
    ensures some { IfOk result (λ n. 0 < length piece.now → 0 < n) }
{
    for _ in 0..MOST_TRIES {
        match writer.write(piece) {
            Ok(n) if n > 0 || piece.is_empty() => return Ok(n),
            Ok(_) => return Err(Error::from(ErrorKind::WriteZero)),
            Err(error) if error.kind() == ErrorKind::Interrupted => {}
            Err(error) => return Err(error),
        }
    }
    Err(Error::from(ErrorKind::Interrupted))
}
