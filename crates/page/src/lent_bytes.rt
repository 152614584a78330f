//! Parts of bytes, and bytes that are given out.
ghost use Rattle.std.specs.Prelude.{◌≡◌, ◌≤◌, ◌↔◌, ◌++◌, length, drop, take, min, IsTrue};
ghost use Rattle.std.specs.Bool.{OnTrue, OnFalse};

/// The first `count` bytes, or all of fewer.
pub(crate) fn first_bytes(bytes: &[u8], count: usize) -> &[u8]
    ensures { result.now ≡ take count bytes.now }
{
    &bytes[..count.min(bytes.len())]
}

/// The bytes after the first `count`.
pub(crate) fn bytes_after(bytes: &[u8], count: usize) -> &[u8]
    ensures { result.now ≡ drop count bytes.now }
{
    &bytes[count.min(bytes.len())..]
}

/// Copies as many bytes as fit over the front of the buffer, and returns how many.
pub(crate) fn fill_front(from: &[u8], buf: &mut [u8]) -> usize
    ensures count { result ≡ min (length buf.old) (length from.now) }
    ensures front { take result buf.new ≡ take result from.now }
    ensures rest { drop result buf.new ≡ drop result buf.old }
{
    let count = buf.len().min(from.len());
    buf[..count].copy_from_slice(&from[..count]);
    count
}

/// Gives bytes out, and their number. False if they don't fit; then nothing is changed.
pub(crate) fn give_bytes(bytes: &[u8], out: &mut [u8], written: &mut usize) -> bool
    ensures fits { IsTrue result ↔ (length bytes.now ≤ length out.old) }
    ensures out { OnTrue result (out.new ≡ bytes.now ++ drop (length bytes.now) out.old) }
    ensures written { OnTrue result (written.new ≡ length bytes.now) }
    ensures kept_out { OnFalse result (out.new ≡ out.old) }
    ensures kept_written { OnFalse result (written.new ≡ written.old) }
{
    if bytes.len() > out.len() {
        return false;
    }
    out[..bytes.len()].copy_from_slice(bytes);
    *written = bytes.len();
    true
}
