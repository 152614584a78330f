//! The blocks of a container, which workers claim by their numbers.

ghost use Rattle.std.specs.Prelude.{◌≡◌, ℕ, ◌+◌, ◌-◌, ◌*◌, ◌/◌, ◌<◌, ◌≤◌, ◌↔◌, min, IsTrue, List};
ghost use Rattle.std.specs.Prelude.{length, take, drop};
ghost use Rattle.job.specs.Pass.{block_size, block, taken, nothing};
ghost use Rattle.job.specs.Passes.{blocks_of};
ghost use Rattle.det_client_c.specs.Blocks.{block_begin, block_end};

use job::{Job, block_size};

/// Each element is in the block whose number is that of the element divided by the size of blocks,
/// and in no other block.
pub fn each_element_once()
    ensures within { (len i : ℕ) → i < len
        → (block_begin len (i / block_size len) ≤ i) × (i < block_end len (i / block_size len)) }
    ensures alone { (len i n : ℕ) → block_begin len n ≤ i → i < block_end len n
        → n ≡ i / block_size len }
{}

/// The blocks are those of a pass over a job. Block n of the pass takes the elements from the
/// beginning of block n up to its end.
pub fn blocks_of_a_pass<J: Job>()
    ensures { (job : J) (plan : J.Plan) (carry : J.Part) (seed cycle pass n : ℕ)
        (elements : List J.Element) → n < blocks_of (length elements)
        → let begin : ℕ = block_begin (length elements) n in
        let end : ℕ = block_end (length elements) n in
        block J.meaning job plan carry seed cycle pass n elements
        ≡ taken J.meaning job plan carry seed cycle pass begin
        (take (end - begin) (drop begin elements))
        (nothing J.meaning job plan carry seed cycle pass) }
{}

/// The elements of block `number` of a container of `len` elements: from `begin`, included, to
/// `end`, excluded. False if the block is empty; then each later one is empty too.
#[unsafe(no_mangle)]
pub extern "C" fn det_block(len: u32, number: u32, begin: &mut u32, end: &mut u32) -> bool
    ensures begin { begin.new ≡ block_begin len number }
    ensures end { end.new ≡ block_end len number }
    ensures some { IsTrue result ↔ (begin.new < end.new) }
    ensures few { IsTrue result ↔ (number < blocks_of len) }
{
    let size = block_size(len as usize) as u64;
    let first = size * u64::from(number);
    *begin = within(len, first);
    *end = within(len, first + size);
    *begin < *end
}

/// The number of blocks of a container of `len` elements that aren't empty. Blocks are numbered
/// from 0.
#[unsafe(no_mangle)]
pub extern "C" fn det_block_count(len: u32) -> u32
    ensures { result ≡ blocks_of len }
{
    let size = block_size(len as usize) as u64;
    ((u64::from(len) + (size - 1)) / size) as u32
}

/// `place`, or `len` if that is less.
fn within(len: u32, place: u64) -> u32
    ensures { result ≡ min len place }
{
    u32::try_from(place).unwrap_or(len).min(len)
}
