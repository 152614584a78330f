//! Runs one block: the loop in which a pass spends its time.
ghost use Rattle.std.specs.Prelude.{◌≡◌, ◌+◌, ◌<◌, ◌++◌, ◌∷◌, [], length, take, drop, IfOk, OnOk};
ghost use Rattle.std.specs.List.{All};
ghost use Rattle.job.specs.Passes.{IsReady, block_in, blocks_in};
ghost use Rattle.pass_in_blocks.specs.BlockAnswers.{answer_of, Shows};
ghost use Rattle.pass_in_blocks.specs.ShownElements.{shown_in};
ghost use Rattle.pass_in_blocks.specs.Steps.{HasKeys, HasRoom, pass_result, added_to, IsAdded};

use crate::block_answer::{BlockAnswer, BlockDone};
use crate::show_block::show_block;
use det_client::element_random::{ElementRandom, PassKeys};
use job::{Job, JobFault, PassRef, PassRoom, PoolFault};
use std::alloc::{AllocError, Global};

/// Adds an item at the end of a list.
#[inline(always)]
pub(crate) fn push<T: Drop>(list: &mut Vec<T>, item: T) -> Result<(), AllocError>
    ensures { OnOk result (list.new.items ≡ list.old.items ++ item ∷ []) }
{
    match list.push(item) {
        Ok(()) => Ok(()),
        Err(_) => Err(AllocError),
    }
}

/// A block to be run.
#[derive(Drop)]
struct Block<'a, J: Job> {
    pass: &'a PassRef<'a, J>,
    /// The common part of its elements' keys: two hashes once a block, and one more an element.
    keys: PassKeys,
    /// The index of its first element.
    first: u32,
    elements: &'a [J::Element],
}

impl<'a, J: Job> Block<'a, J> {
    /// Runs its element `k` with its own random numbers, and adds the result to the lists and the
    /// part. It is the body of the hot loop, so it is inlined there.
    #[inline(always)]
    fn step(
        &self,
        alloc: Global,
        k: usize,
        elements: &mut Vec<J::Element>,
        draws: &mut Vec<u32>,
        part: &mut J::Part,
    ) -> Result<(), PoolFault>
        requires ready { IsReady J.meaning J.Covers J.Own J.Fit self.now.pass.now }
        requires keys { HasKeys self.now.pass.now self.now.keys }
        requires own { All (J.Own self.now.pass.now.job) self.now.elements.now }
        requires inside { k < length self.now.elements.now }
        requires few { self.now.first + k < 65536 }
        requires room { HasRoom J.Covers self.now.pass.now part.old }
        ensures { IsAdded result (pass_result elements.new.items draws.new.items part.new)
            (added_to J.meaning self.now.pass.now (self.now.first + k)
            (take 1 (drop k self.now.elements.now))
            (pass_result elements.old.items draws.old.items part.old)) }
    {
        let pass = self.pass;
        let i = self.first + k as u32;
        let mut random = ElementRandom::from_key(self.keys.key(i));
        match pass.job().run(
            alloc,
            &**pass.plan,
            &**pass.carry,
            pass.number,
            &self.elements[k],
            &mut random,
            part,
        ) {
            Ok(element) => {
                push(elements, element)?;
                push(draws, random.draws() as u32)?;
                Ok(())
            }
            Err(fault) => match fault {
                JobFault::Code(code) => Err(PoolFault::Refused { element: i, code }),
                JobFault::OutOfMemory => Err(PoolFault::OutOfMemory),
            },
        }
    }
}

/// Runs the elements of a block in order, in memory of `room`, and writes their bytes if the pass
/// shows its elements. The first refusal ends it.
pub fn run_block<J: Job>(
    pass: &PassRef<'_, J>,
    block: u32,
    room: &mut PassRoom<J::Element, J::Part>,
) -> Result<BlockAnswer<J::Element, J::Part>, AllocError>
    requires ready { IsReady J.meaning J.Covers J.Own J.Fit pass.now }
    requires inside { block < blocks_in pass.now }
    ensures answer { IfOk result (λ answer. answer_of answer ≡ block_in J.meaning pass.now block) }
    ensures shown { IfOk result (Shows (shown_in J.meaning pass.now block)) }
{
    let run = Block {
        pass,
        keys: PassKeys::new(pass.seed, pass.cycle, pass.number),
        first: pass.first_in(block),
        elements: pass.block(block),
    };
    let alloc = room.alloc();
    let mut elements = room.elements.block()?;
    let mut draws = room.draws.block()?;
    let mut part = pass.job().unit(alloc, &mut room.part());
    'run: for k in 0..run.elements.len() {
        match run.step(alloc, k, &mut elements, &mut draws, &mut part) {
            Ok(()) => {}
            Err(fault) => match fault {
                PoolFault::Refused { element, code } => {
                    room.elements.keep_block(elements);
                    room.draws.keep_block(draws);
                    room.keep_part(part);
                    return Ok(BlockAnswer::Refused { element, code });
                }
                PoolFault::OutOfMemory => return Err(AllocError),
            },
        }
    }
    let shown = show_block(pass, block, elements.as_slice(), draws.as_slice(), room)?;
    Ok(BlockAnswer::Done(BlockDone {
        elements,
        draws,
        part,
        shown,
    }))
}
