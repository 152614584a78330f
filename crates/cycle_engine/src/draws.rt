//! The draws of a cycle's elements: the count of random numbers that each drew.
ghost use Rattle.std.specs.Prelude.{◌≡◌, ◌≤◌, ◌⊎◌, [], length, IfOk};
ghost use Rattle.std.specs.List.{All};
ghost use Rattle.std.specs.Arc.{arc_value};
ghost use Rattle.job.specs.Cycle.{added};
ghost use Rattle.job.specs.Passes.{drawn_so_far};

use crate::desk::Desk;
use det_values::Container;
use job::Job;
use pass_in_blocks::draw_sums;
use std::alloc::{AllocError, Global};
use std::marker::Model;
use std::sync::Arc;

/// The draws of each element in all passes up to one. Contracts see the sums.
///
/// The draws of the pass and of the passes before it are separate, since the sums after the last
/// pass are not needed.
#[derive(Drop)]
pub struct Draws {
    earlier: Arc<Container<u32>, Global>,
    own: Container<u32>,
}

impl Model for Draws {
    ghost use Rattle.std.specs.Prelude.{◌≡◌, ◌≤◌, ◌⊎◌, ℕ, List, [], length};
    ghost use Rattle.std.specs.List.{All};
    ghost use Rattle.std.specs.Arc.{arc_value};
    ghost use Rattle.job.specs.Passes.{drawn_so_far};

    ghost Value = { List ℕ };

    ghost view = { λ d. drawn_so_far (arc_value d.earlier) d.own };

    ghost invariant = { λ d.
        ((arc_value d.earlier ≡ []) ⊎ (length (arc_value d.earlier) ≡ length d.own))
        × All (λ n. n ≤ 458745) (arc_value d.earlier) × All (λ n. n ≤ 65535) d.own };
}

impl Draws {
    pub(crate) fn new(earlier: Arc<Container<u32>, Global>, own: Container<u32>) -> Draws
        requires level { (arc_value earlier ≡ []) ⊎ (length (arc_value earlier) ≡ length own) }
        requires few_earlier { All (λ n. n ≤ 458745) (arc_value earlier) }
        requires few { All (λ n. n ≤ 65535) own }
        ensures is { result ≡ drawn_so_far (arc_value earlier) own }
        ensures first { arc_value earlier ≡ [] → result ≡ own }
        ensures later { length (arc_value earlier) ≡ length own
            → result ≡ added (arc_value earlier) own }
    {
        Draws { earlier, own }
    }

    /// The sums, for the next pass.
    pub(crate) fn into_sums<J: Job>(
        self,
        desk: &mut Desk<J>,
    ) -> Result<Arc<Container<u32>, Global>, AllocError>
        ensures { IfOk result (λ all. arc_value all ≡ self) }
    {
        let Draws { earlier, own } = self;
        if earlier.is_empty() {
            desk.keep_draws(earlier);
            return desk.share_draws(own);
        }
        let all = draw_sums(&*earlier, &own, &mut desk.room.draws)?;
        desk.room.draws.keep(own);
        desk.keep_draws(earlier);
        desk.share_draws(all)
    }

    /// Returns the memory to the desk.
    pub(crate) fn release<J: Job>(self, desk: &mut Desk<J>) {
        let Draws { earlier, own } = self;
        desk.room.draws.keep(own);
        desk.keep_draws(earlier);
    }
}
