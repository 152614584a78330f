//! The frames of a run, one for each activation of its client.
ghost use Rattle.std.specs.Prelude.{◌≡◌, IfOk};

use crate::{Bytes, Bytes64, DrawnElements, Elements, RefusedAt, Samples};
use std::alloc::{AllocError, Global};

/// The input of one cycle: its time in nanoseconds, if known, and the samples that arrive in it.
#[derive(Debug, PartialEq, Drop)]
pub struct CycleInput {
    pub time: Option<u64>,
    pub samples: Samples,
}

impl CycleInput {
    /// A copy of the input.
    pub fn try_clone(&self, alloc: Global) -> Result<CycleInput, AllocError>
        ensures { IfOk result (λ copy. copy ≡ self.now) }
    {
        match self.samples.try_clone(alloc) {
            Ok(samples) => Ok(CycleInput {
                time: self.time,
                samples,
            }),
            Err(refused) => Err(refused),
        }
    }
}

/// An element's bytes after a cycle, and its draws: the number of random numbers that it drew in
/// that cycle.
#[derive(Debug, PartialEq, Drop)]
pub struct DrawnElement {
    pub bytes: Bytes64,
    pub draws: u32,
}

/// How a cycle ended.
#[derive(Debug, PartialEq, Drop)]
pub enum Outcome {
    Finished {
        elements: DrawnElements,
        output: Bytes,
    },
    Refused(RefusedAt),
}

/// One cycle: its input and its outcome.
#[derive(Debug, PartialEq, Drop)]
pub struct RunFrame {
    pub input: CycleInput,
    pub outcome: Outcome,
}

/// One activation of a client. A run is `Register`, `Discover`, `Init`, any number of `Run`s,
/// `Terminate`.
#[derive(Debug, PartialEq, Drop)]
pub enum Frame {
    Register,
    Discover,
    /// The elements are a plain list, since a run has this frame once.
    Init(Elements),
    Run(RunFrame),
    Terminate,
}
