//! The state of a front at the start of a buffer, for proofs only.
ghost use Rattle.std.specs.Prelude.{ℕ, List};

use std::marker::Brand;

/// The state of a front when its buffer was made, for proofs only. `name` is that of its reference
/// to the sink, and `faults` and `took` are the sink's. A function over `B: Start` is called at
/// `Brand`, and the ghosts of that call are those of its front.
pub trait Start {
    ghost name: { ℕ };

    ghost faults: { ℕ };

    ghost took: { List ℕ → Type 0 };
}

impl Start for Brand {
    ghost name = { 0 };

    ghost faults = { 0 };

    ghost took = { λ _. Unit {0} };
}
