//! The memory in which a crew's kept threads run their blocks, and its way back to the caller.

use crate::link::{Link, clear_link};
use job::{Job, PassRoom};
use pass_in_blocks::{BlockAnswer, BlockResult};
use std::alloc::Global;
use std::mem;
use tickets::OfficeName;

/// More spares than any room holds.
const ALL: usize = usize::MAX;

/// Memory in which a kept thread runs its blocks and lists their results. Its contents mean
/// nothing.
#[derive(Drop)]
pub struct Bench<E, P> {
    pub room: PassRoom<E, P>,
    pub results: Vec<BlockResult<E, P>>,
}

impl<E: Drop, P: Drop> Bench<E, P> {
    /// An empty bench. It allocates nothing.
    pub fn new(alloc: Global) -> Bench<E, P> {
        Bench {
            room: PassRoom::new(alloc),
            results: Vec::new(alloc),
        }
    }

    /// Takes back a room, and moves the spares of the present one to it.
    pub(crate) fn take_room(&mut self, room: PassRoom<E, P>) {
        let mut before = mem::replace(&mut self.room, room);
        before.give(&mut self.room, ALL);
    }

    /// Keeps the memory of results that are no longer needed.
    pub(crate) fn take_results(&mut self, mut results: Vec<BlockResult<E, P>>) {
        'each: while let Some(BlockResult { block: _, answer }) = results.pop() {
            keep_answer(&mut self.room, answer);
        }
        self.results = results;
    }
}

/// Keeps the memory of a block's result.
fn keep_answer<E: Drop, P: Drop>(room: &mut PassRoom<E, P>, answer: BlockAnswer<E, P>) {
    if let BlockAnswer::Done(done) = answer {
        room.elements.keep_block(done.elements);
        room.draws.keep_block(done.draws);
        room.keep_part(done.part);
        room.keep_bytes(done.shown.into_bytes());
    }
}

/// Moves the spares of all benches back to the caller's room, late replies' memory included. No
/// pass may wait for replies.
pub(crate) fn clear_benches<J: Job, B: OfficeName>(
    links: &mut [Link<J, B>],
    room: &mut PassRoom<J::Element, J::Part>,
) {
    'each: for link in links {
        clear_link(link);
        link.bench.room.give(room, ALL);
    }
}

/// Distributes the spares evenly: each bench gets as many as the caller keeps. So they don't gather
/// at a worker that runs few blocks, and the crew's memory stops growing.
pub(crate) fn fill_benches<J: Job, B: OfficeName>(
    links: &mut [Link<J, B>],
    room: &mut PassRoom<J::Element, J::Part>,
) {
    clear_benches(links, room);
    let count = room.elements.blocks() / (links.len() + 1);
    'each: for link in links {
        room.give(&mut link.bench.room, count);
    }
}
