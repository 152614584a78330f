//! `Sides`: the copies, which send rows, and the taker, which takes them.
ghost use Rattle.std.specs.Prelude.{◌≡◌, ◌<◌, length, IfOk};
ghost use Rattle.twins.specs.Sides.{twins_of};

use crate::push_item::push;
use crate::taker::{Intake, Taker};
use crate::twin::Twin;
use job::Job;
use std::alloc::AllocError;

/// Copies of a run, and what takes their rows.
#[derive(Drop)]
pub(crate) struct Sides<J: Job> {
    /// The last copy.
    pub(crate) last: Twin<J>,
    /// All copies before it.
    pub(crate) others: Vec<Twin<J>>,
    pub(crate) taker: Taker,
}

impl<J: Job> Sides<J> {
    /// The sides of a run before anything is taken.
    pub(crate) fn new(mut twins: Vec<Twin<J>>, intakes: Vec<Intake>) -> Sides<J>
        requires { 0 < length twins.items }
        ensures twins { twins_of result ≡ twins.items }
        ensures intakes { result.taker.intakes ≡ intakes }
        ensures rows { result.taker.rows ≡ 0 }
    {
        let Some(last) = twins.pop() else {
            unreachable!()
        };
        Sides {
            last,
            others: twins,
            taker: Taker { intakes, rows: 0 },
        }
    }

    /// All copies in order, and the ends from which their rows are taken.
    pub(crate) fn parts(self) -> Result<(Vec<Twin<J>>, Vec<Intake>), AllocError>
        ensures twins { IfOk result (λ parts. parts.0.items ≡ twins_of self) }
        ensures intakes { IfOk result (λ parts. parts.1 ≡ self.taker.intakes) }
    {
        let Sides {
            last,
            mut others,
            taker,
        } = self;
        push(&mut others, last)?;
        let Taker { intakes, .. } = taker;
        Ok((others, intakes))
    }
}
