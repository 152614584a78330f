//! Memory of outputs for reuse.

ghost use Rattle.std.specs.Prelude.{◌≡◌, [], IfOk};

use det_values::Bytes;
use std::alloc::{AllocError, Global};

/// An empty list with room for `room` bytes, in the memory of `spare` if there is some.
pub fn empty_output(
    alloc: Global,
    spare: &mut Option<Bytes>,
    room: usize,
) -> Result<Bytes, AllocError>
    ensures { IfOk result (λ bytes. bytes ≡ []) }
{
    let mut bytes = spare.take().unwrap_or(Bytes::new(alloc)).into_vec();
    bytes.clear();
    bytes.reserve(room)?;
    Ok(Bytes::from_vec(bytes))
}
