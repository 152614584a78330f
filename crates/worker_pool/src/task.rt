//! The data that a crew's threads share in a pass, which may outlive it.
ghost use Rattle.std.specs.Prelude.{◌≡◌, IfOk};

use crate::seat::PassTable;
use det_values::Container;
use job::{Job, PassRef};
use std::alloc::{AllocError, Global};
use std::marker::Model;
use std::sync::Arc;

/// A pass that a thread may hold as long as it needs, since it owns its data.
#[derive(Drop)]
pub struct OwnedPass<J: Job> {
    pub job: Arc<J, Global>,
    pub plan: Arc<J::Plan, Global>,
    pub carry: Arc<J::Part, Global>,
    pub number: u8,
    pub elements: Arc<Container<J::Element>, Global>,
    pub seed: u64,
    pub cycle: u32,
    pub earlier: Arc<Container<u32>, Global>,
    pub shows: bool,
}

impl<J: Job> Model for OwnedPass<J> {
    ghost use Rattle.std.specs.Arc.{arc_value};
    ghost use Rattle.job.specs.Passes.{PassValue};

    ghost Value = { PassValue J J.Element J.Plan J.Part };

    ghost view = { λ p. record {
      job = arc_value p.job;
      plan = arc_value p.plan;
      carry = arc_value p.carry;
      number = p.number;
      elements = arc_value p.elements;
      seed = p.seed;
      cycle = p.cycle;
      earlier = arc_value p.earlier;
      shows = p.shows;
    } };
}

impl<J: Job> OwnedPass<J> {
    /// The same pass with its own owners of the data.
    pub fn from_pass(pass: &PassRef<'_, J>) -> Result<OwnedPass<J>, AllocError>
        ensures { IfOk result (λ held. held ≡ pass.now) }
    {
        Ok(OwnedPass {
            job: Arc::try_clone(pass.job)?,
            plan: Arc::try_clone(pass.plan)?,
            carry: Arc::try_clone(pass.carry)?,
            number: pass.number,
            elements: Arc::try_clone(pass.elements)?,
            seed: pass.seed,
            cycle: pass.cycle,
            earlier: Arc::try_clone(pass.earlier)?,
            shows: pass.shows,
        })
    }

    /// The pass, borrowed.
    pub fn pass(&self) -> PassRef<'_, J>
        ensures { result ≡ self.now }
    {
        PassRef {
            job: &self.job,
            plan: &self.plan,
            carry: &self.carry,
            number: self.number,
            elements: &self.elements,
            seed: self.seed,
            cycle: self.cycle,
            earlier: &self.earlier,
            shows: self.shows,
        }
    }
}

/// A pass, and the table on which the workers claim its blocks.
#[derive(Drop)]
pub struct Task<J: Job> {
    pub pass: OwnedPass<J>,
    pub table: PassTable,
}
