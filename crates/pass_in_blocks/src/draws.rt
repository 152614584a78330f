//! Sums of draws: those of the passes before plus those of a pass.
ghost use Rattle.std.specs.Prelude.{◌≡◌, ◌≤◌, length, IfOk};
ghost use Rattle.std.specs.List.{All};
ghost use Rattle.job.specs.Cycle.{added};

use det_values::{Container, Spares};
use std::alloc::AllocError;

/// The sums of two blocks, number by number, in spare memory.
pub(crate) fn block_sums(
    left: &[u32],
    right: &[u32],
    spares: &mut Spares<u32>,
) -> Result<Vec<u32>, AllocError>
    requires equal { length left.now ≡ length right.now }
    requires left { All (λ n. n ≤ 458745) left.now }
    requires right { All (λ n. n ≤ 65535) right.now }
    ensures { IfOk result (λ draw_sums. draw_sums.items ≡ added left.now right.now) }
{
    let mut draw_sums = spares.block()?;
    for i in 0..left.len() {
        draw_sums.push(left[i] + right[i]).map_err(|_| AllocError)?;
    }
    Ok(draw_sums)
}

/// The sums of two lists, number by number, in spare memory.
pub fn draw_sums(
    left: &Container<u32>,
    right: &Container<u32>,
    spares: &mut Spares<u32>,
) -> Result<Container<u32>, AllocError>
    requires equal { length left.now ≡ length right.now }
    requires left { All (λ n. n ≤ 458745) left.now }
    requires right { All (λ n. n ≤ 65535) right.now }
    ensures { IfOk result (λ draw_sums. draw_sums ≡ added left.now right.now) }
{
    let mut draw_sums = spares.container(left.len())?;
    for b in 0..left.blocks() {
        let block = block_sums(left.block(b), right.block(b), spares)?;
        draw_sums.push_block(block, spares)?;
    }
    Ok(draw_sums)
}
