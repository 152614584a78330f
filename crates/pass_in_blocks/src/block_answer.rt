//! The results of blocks.
ghost use Rattle.std.specs.Prelude.{◌≡◌, is_err};
ghost use Rattle.pass_in_blocks.specs.BlockAnswers.{answer_of};

use det_values::{DrawnBlock, Limited};

/// The result of a block that succeeded: its new elements, the draws of each, and the joined part.
/// If the pass shows its elements, `shown` has their bytes.
#[derive(Drop)]
pub struct BlockDone<E, P> {
    pub elements: Vec<E>,
    pub draws: Vec<u32>,
    pub part: P,
    pub shown: DrawnBlock,
}

/// The result of a block.
#[derive(Drop)]
pub enum BlockAnswer<E, P> {
    Done(BlockDone<E, P>),
    /// The first element of the block that refuses, by its index in the container, and its code.
    Refused { element: u32, code: u32 },
}

impl<E, P> BlockAnswer<E, P> {
    /// Whether an element of the block refuses.
    pub fn is_refusal(&self) -> bool
        ensures { result ≡ is_err (answer_of self.now) }
    {
        match self {
            BlockAnswer::Done(_) => false,
            BlockAnswer::Refused { .. } => true,
        }
    }
}

/// A block, by its number counted from 0, and its result.
#[derive(Drop)]
pub struct BlockResult<E, P> {
    pub block: u32,
    pub answer: BlockAnswer<E, P>,
}

/// The results of one worker's blocks. A pass has at most 256 blocks.
pub type BlockResults<E, P> = Limited<BlockResult<E, P>, 256>;
