//! Writes a whole slice to a sink, in as many writes as it takes.
ghost use Rattle.std.specs.Prelude.{ℕ, ◌≤◌, OnOk, OnErr};
ghost use Rattle.det_io.specs.Count.{Rose};
ghost use Rattle.det_io.specs.Sink.{Grew, GrewByPrefix, GrewShort};

use crate::{Sink, SinkFailed};

/// Writes all the bytes, in as many writes as the sink needs. It allocates nothing. If a write
/// fails, the sink holds a prefix of the bytes.
pub fn write_all<K: Sink>(sink: &mut K, bytes: &[u8]) -> Result<(), SinkFailed>
    ensures all { OnOk result (Grew (K.took sink.old) (K.took sink.new) bytes.now) }
    ensures part { GrewByPrefix (K.took sink.old) (K.took sink.new) bytes.now }
    ensures short { OnErr result (GrewShort (K.took sink.old) (K.took sink.new) bytes.now) }
    ensures cause { OnErr result (Rose (K.faults sink.old) (K.faults sink.new)) }
    ensures counted { K.faults sink.old ≤ K.faults sink.new }
{
    let mut done = 0;
    while done < bytes.len() {
        done += sink.write(&bytes[done..])?;
    }
    Ok(())
}
