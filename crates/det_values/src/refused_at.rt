//! The place at which a job refused a cycle.
ghost use Rattle.std.specs.Prelude.{◌≡◌};
ghost use Rattle.det_values.specs.Values.{phase_word};

use std::marker::Model;

/// A part of a cycle: the sequential begin, the passes of the pool, the sequential end.
#[derive(Clone, Copy, Debug, PartialEq, Eq, Drop)]
pub enum Phase {
    Prepare,
    Pool,
    Conclude,
}

impl Phase {
    /// The phase's name in texts.
    pub fn word(self) -> &'static str
        ensures { result.now ≡ phase_word self }
    {
        match self {
            Phase::Prepare => "prepare",
            Phase::Pool => "pool",
            Phase::Conclude => "conclude",
        }
    }
}

/// Where a job refused a cycle, and its code. In the pool the pass is below 8 and the element below
/// 65,536, both counted from 0; in the other phases both are 0.
#[derive(Clone, Copy, Debug, PartialEq, Eq, Drop)]
pub struct RefusedAt {
    pub phase: Phase,
    pub pass: u8,
    pub element: u32,
    pub code: u32,
}

impl Model for RefusedAt {
    ghost use Rattle.det_values.specs.Values.{RefusedAtValue};
    ghost use Rattle.det_values.specs.Limits.{IsPlace};

    ghost Value = { RefusedAtValue };

    ghost view = { λ r. record {
      phase = r.phase;
      pass = r.pass;
      element = r.element;
      code = r.code;
    } };

    ghost invariant = { λ r. IsPlace r.phase r.pass r.element };

    ghost inverse = { λ v. record {
      phase = v.phase;
      pass = v.pass;
      element = v.element;
      code = v.code;
    } };
}
