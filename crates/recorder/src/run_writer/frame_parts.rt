//! Writes a frame in parts, so that long blocks of elements aren't copied before the write.
ghost use Rattle.std.specs.Prelude.{◌≡◌, ◌+◌, ◌≤◌, ◌++◌, length, OnOk, OnErr};
ghost use Rattle.det_values.specs.Blocks.{joined};
ghost use Rattle.det_values.specs.Spelling.{spelled_all};
ghost use Rattle.det_io.specs.Count.{Rose};
ghost use Rattle.det_io.specs.Sink.{Grew, GrewShort};
ghost use Rattle.recorder.specs.run_writer.Record.{counted};

use det_io::{Sink, SinkFailed, write_all};
use det_values::DrawnBlock;

/// Writes the parts of a frame: `front`, the blocks in order, `behind`. It allocates nothing.
pub(crate) fn write_parts<K: Sink>(
    front: &[u8],
    blocks: &[DrawnBlock],
    behind: &[u8],
    sink: &mut K,
) -> Result<(), SinkFailed>
    ensures all { OnOk result (Grew (K.took sink.old) (K.took sink.new)
        (front.now ++ (spelled_all (joined blocks.now) ++ behind.now))) }
    ensures short { OnErr result (GrewShort (K.took sink.old) (K.took sink.new)
        (front.now ++ (spelled_all (joined blocks.now) ++ behind.now))) }
    ensures cause { OnErr result (Rose (K.faults sink.old) (K.faults sink.new)) }
    ensures counted { K.faults sink.old ≤ K.faults sink.new }
{
    write_all(sink, front)?;
    write_blocks(blocks, sink)?;
    write_all(sink, behind)
}

/// Writes blocks of elements from the memory they are in, which holds them as format Two spells
/// them.
fn write_blocks<K: Sink>(blocks: &[DrawnBlock], sink: &mut K) -> Result<(), SinkFailed>
    ensures all { OnOk result
        (Grew (K.took sink.old) (K.took sink.new) (spelled_all (joined blocks.now))) }
    ensures short { OnErr result
        (GrewShort (K.took sink.old) (K.took sink.new) (spelled_all (joined blocks.now))) }
    ensures cause { OnErr result (Rose (K.faults sink.old) (K.faults sink.new)) }
    ensures counted { K.faults sink.old ≤ K.faults sink.new }
{
    for block in blocks {
        write_all(sink, block.spelled())?;
    }
    Ok(())
}

/// Adds the bytes of blocks to a count. The sum saturates at the last value of its type.
pub(crate) fn count_blocks(blocks: &[DrawnBlock], before: u64) -> u64
    ensures { result ≡ counted (before + length (spelled_all (joined blocks.now))) }
{
    let mut bytes = before;
    for block in blocks {
        bytes = bytes.saturating_add(block.spelled().len() as u64);
    }
    bytes
}
