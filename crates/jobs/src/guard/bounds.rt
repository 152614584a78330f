//! The range of samples that a guard's channels accept.

ghost use Rattle.std.specs.Prelude.{◌≡◌, pos, true, false, IfOk, IfErr};
ghost use Rattle.job_shared.specs.Params.{param, is_param};
ghost use Rattle.jobs.specs.guard.Bounds.{contains};

use job::BadParam;
use job_shared::whole_param;

/// The least and the greatest sample that a channel accepts.
#[derive(Clone, Copy, Debug, PartialEq, Eq, Drop)]
pub struct Bounds {
    pub(crate) low: i64,
    pub(crate) high: i64,
}

impl Bounds {
    /// The range from `low` to `high`.
    pub(crate) fn new(low: i64, high: i64) -> Bounds
        ensures { result ≡ record { low = low; high = high } }
    {
        Bounds { low, high }
    }

    /// Whether a sample is in range.
    pub(crate) fn contains(&self, value: i64) -> bool
        ensures { result ≡ contains self.now value }
    {
        self.low <= value && value <= self.high
    }
}

/// Parameter 2, the upper bound: from the lower one to 10^12.
pub(crate) fn upper_bound_param(params: &[i64], low: i64) -> Result<i64, BadParam>
    requires { low ≡ param params.now 1 }
    ensures ok { let good = is_param params.now 2 (param params.now 1) (pos 1000000000000) in
        IfOk result (λ z. (good ≡ true) × (z ≡ param params.now 2)) }
    ensures err { let good = is_param params.now 2 (param params.now 1) (pos 1000000000000) in
        IfErr result (λ bad. (good ≡ false) × (bad.index ≡ 2)) }
{
    whole_param(params, 2, low, 1_000_000_000_000)
}
