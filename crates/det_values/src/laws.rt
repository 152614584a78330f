//! The law of `==` on frames, their parts and profiles: it decides equality as contracts see it.
ghost use Rattle.std.specs.Prelude.{◌≡◌};
ghost use Rattle.std.specs.Bool.{Decides};

use crate::{CycleInput, DrawnElements, Frame, Outcome, Profile, RefusedAt, RunFrame};

/// `==` returns true exactly when both sides are the same value for contracts.
#[tactic(auto, using(crate::proofs::Equality::deciders))]
pub fn equality()
    ensures elements { (a b : DrawnElements)
        → Decides (⟦<DrawnElements as PartialEq>⟧.eq a b) (a ≡ b) }
    ensures refusals { (a b : RefusedAt) → Decides (⟦<RefusedAt as PartialEq>⟧.eq a b) (a ≡ b) }
    ensures inputs { (a b : CycleInput) → Decides (⟦<CycleInput as PartialEq>⟧.eq a b) (a ≡ b) }
    ensures outcomes { (a b : Outcome) → Decides (⟦<Outcome as PartialEq>⟧.eq a b) (a ≡ b) }
    ensures runs { (a b : RunFrame) → Decides (⟦<RunFrame as PartialEq>⟧.eq a b) (a ≡ b) }
    ensures frames { (a b : Frame) → Decides (⟦<Frame as PartialEq>⟧.eq a b) (a ≡ b) }
    ensures profiles { (a b : Profile) → Decides (⟦<Profile as PartialEq>⟧.eq a b) (a ≡ b) }
{}
