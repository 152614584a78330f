//! Copies the front of one slice over the front of another, for reads from memory.
ghost use Rattle.std.specs.Prelude.{◌≡◌, min, take, length};

// Copies as many bytes as fit, at most `most`, and returns their number.
pub(crate) fn read_memory(from: &[u8], buf: &mut [u8], most: usize) -> usize
    ensures count { result ≡ min (min (length buf.old) most) (length from.now) }
    ensures front { take result buf.new ≡ take result from.now }
{
    let n = buf.len().min(most).min(from.len());
    buf[..n].copy_from_slice(&from[..n]);
    n
}
