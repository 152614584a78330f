//! The size of the blocks that workers claim in a pass.
ghost use Rattle.std.specs.Prelude.{◌≡◌, ◌≤◌, ◌<◌};
ghost use Rattle.job.specs.Pass.{block_size};
ghost use Rattle.job.specs.Passes.{blocks_of};

/// The number of elements of a block, given the number of all elements. The last block may be
/// shorter.
#[tactic(auto, unfolding(crate::specs::Pass::block_size))]
pub fn block_size(elements: usize) -> usize
    ensures size { result ≡ block_size elements }
    ensures some { 0 < result }
    ensures few { result ≤ 256 }
{
    if elements <= 4_096 { 64 } else { 256 }
}

/// The number of blocks of this many elements.
pub fn block_count(elements: usize) -> u32
    requires { elements ≤ 65536 }
    ensures count { result ≡ blocks_of elements }
    ensures few { result ≤ 256 }
{
    let size = block_size(elements);
    ((elements + (size - 1)) / size) as u32
}
