//! The step of a first-order low-pass filter.

ghost use Rattle.std.specs.Prelude.{◌≡◌, ◌≤◌};
ghost use Rattle.det_values.specs.Limits.{IsSampleValue};
ghost use Rattle.job_shared.specs.Filter.{step_towards};

/// A value after one step towards a target: it moves by the difference divided by 2^`shift`,
/// rounded down.
pub fn step_towards(value: i64, target: i64, shift: u32) -> i64
    requires value { IsSampleValue value }
    requires target { IsSampleValue target }
    requires shift { shift ≤ 16 }
    ensures step { result ≡ step_towards value target shift }
    ensures limits { IsSampleValue result }
{
    value + ((target - value) >> shift)
}
