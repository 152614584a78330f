//! Memory that the cycles of an engine reuse.
ghost use Rattle.std.specs.Prelude.{◌≡◌, IfOk};
ghost use Rattle.std.specs.Arc.{arc_value};

use crate::shared_place::SharedPlace;
use det_values::{Bytes, Container, CycleInput, Outcome, RunFrame, Spares};
use job::{Job, PassRoom};
use std::alloc::{AllocError, Global};
use std::marker::Model;
use std::mem;
use std::sync::Arc;

/// Memory that the cycles of an engine reuse, and the allocator for more. Its old contents are
/// gone, so contracts see nothing of it. It is no field of the engine: an engine that moves to
/// another thread leaves its desk behind.
#[derive(Drop)]
pub struct Desk<J: Job> {
    pub(crate) room: PassRoom<J::Element, J::Part>,
    pub(crate) plans: SharedPlace<J::Plan>,
    carries: SharedPlace<J::Part>,
    elements: SharedPlace<Container<J::Element>>,
    draws: SharedPlace<Container<u32>>,
    /// A spare output.
    pub(crate) output: Option<Bytes>,
}

/// Keeps a container that has elements. An empty one has no memory, and would be taken in place of
/// one that has.
fn keep_nonempty<E: Drop>(spares: &mut Spares<E>, container: Container<E>) {
    if !container.is_empty() {
        spares.keep(container);
    }
}

impl<J: Job> Model for Desk<J> {
    ghost Value = { Unit {0} };

    ghost view = { λ _. tt };
}

impl<J: Job> Desk<J> {
    /// A desk without spare memory. It allocates nothing.
    pub fn new(alloc: Global) -> Desk<J> {
        Desk {
            room: PassRoom::new(alloc),
            plans: SharedPlace::new(),
            carries: SharedPlace::new(),
            elements: SharedPlace::new(),
            draws: SharedPlace::new(),
            output: None,
        }
    }

    /// The allocator for more memory.
    pub(crate) fn alloc(&self) -> Global {
        self.room.alloc()
    }

    /// A plan with an owner that can be cloned.
    pub(crate) fn share_plan(&mut self, plan: J::Plan) -> Result<Arc<J::Plan, Global>, AllocError>
        ensures { IfOk result (λ owner. arc_value owner ≡ plan) }
    {
        let alloc = self.alloc();
        self.plans.share(alloc, plan)
    }

    /// A part that is carried to a pass, with an owner that can be cloned.
    pub(crate) fn share_part(&mut self, part: J::Part) -> Result<Arc<J::Part, Global>, AllocError>
        ensures { IfOk result (λ owner. arc_value owner ≡ part) }
    {
        let alloc = self.alloc();
        let owner = self.carries.share(alloc, part)?;
        if let Some(spare) = self.carries.spare.take() {
            self.room.keep_part(spare);
        }
        Ok(owner)
    }

    /// Elements for a pass or for the next cycle, with an owner that can be cloned.
    pub(crate) fn share_elements(
        &mut self,
        elements: Container<J::Element>,
    ) -> Result<Arc<Container<J::Element>, Global>, AllocError>
        ensures { IfOk result (λ owner. arc_value owner ≡ elements) }
    {
        let alloc = self.alloc();
        let owner = self.elements.share(alloc, elements)?;
        if let Some(spare) = self.elements.spare.take() {
            keep_nonempty(&mut self.room.elements, spare);
        }
        Ok(owner)
    }

    /// Draws for the next pass, with an owner that can be cloned.
    pub(crate) fn share_draws(
        &mut self,
        draws: Container<u32>,
    ) -> Result<Arc<Container<u32>, Global>, AllocError>
        ensures { IfOk result (λ owner. arc_value owner ≡ draws) }
    {
        let alloc = self.alloc();
        let owner = self.draws.share(alloc, draws)?;
        if let Some(spare) = self.draws.spare.take() {
            keep_nonempty(&mut self.room.draws, spare);
        }
        Ok(owner)
    }

    /// Keeps the owner of a carried part for its memory.
    pub(crate) fn keep_part(&mut self, owner: Arc<J::Part, Global>) {
        self.carries.keep(owner);
    }

    /// Keeps the owner of draws for its memory.
    pub(crate) fn keep_draws(&mut self, owner: Arc<Container<u32>, Global>) {
        self.draws.keep(owner);
    }

    /// Keeps the owner of elements for its memory. If there is no other owner, their blocks become
    /// spare at once.
    pub(crate) fn keep_elements(&mut self, owner: Arc<Container<J::Element>, Global>) {
        let mut owner = owner;
        if let Some(place) = Arc::get_mut(&mut owner) {
            let empty = Container::new(self.room.alloc());
            self.room.elements.keep(mem::replace(place, empty));
        }
        self.elements.keep(owner);
    }

    /// Takes back the frame of a cycle for its memory: keeps that of the outcome, and returns the
    /// input.
    pub fn take_back(&mut self, run: RunFrame) -> CycleInput {
        let RunFrame { input, outcome } = run;
        match outcome {
            Outcome::Finished { elements, output } => {
                self.room.keep_frame(elements);
                self.output = Some(output);
            }
            Outcome::Refused(_) => {}
        }
        input
    }
}
