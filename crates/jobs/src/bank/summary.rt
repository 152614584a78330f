//! The bank's parts: the sum, the least and the greatest of levels, and the output made of them.

ghost use Rattle.std.specs.Prelude.{◌≡◌, IfOk};
ghost use Rattle.det_values.specs.Limits.{IsSampleValue};
ghost use Rattle.jobs.specs.bank.Meaning.{summary_of, output};
ghost use Rattle.jobs.specs.bank.Ranges.{IsSummaryOf};

use det_values::Bytes;
use job_shared::{Joinable, empty_output};
use std::alloc::{AllocError, Global};

/// The sum, the least and the greatest of the levels of some channels.
#[derive(Clone, Copy, Debug, PartialEq, Eq, Drop)]
pub struct Summary {
    pub(crate) sum: i64,
    pub(crate) least: i64,
    pub(crate) greatest: i64,
}

/// The summary of one level.
#[inline(always)]
pub(crate) fn summary_of(level: i64) -> Summary
    requires { IsSampleValue level }
    ensures summary { result ≡ summary_of level }
    ensures one { IsSummaryOf result 1 }
{
    Summary {
        sum: level,
        least: level,
        greatest: level,
    }
}

impl Joinable for Summary {
    ghost use Rattle.jobs.specs.bank.Meaning.{both};
    ghost use Rattle.jobs.specs.bank.Ranges.{IsSummaryOf};

    ghost both = { both };

    ghost IsOf = { IsSummaryOf };

    #[inline(always)]
    fn join(self, right: Summary) -> Summary {
        Summary {
            sum: self.sum + right.sum,
            least: self.least.min(right.least),
            greatest: self.greatest.max(right.greatest),
        }
    }
}

/// The sum, the least and the greatest level, in 24 bytes. All three are 0 if there is no channel.
pub(crate) fn output(
    part: Option<Summary>,
    alloc: Global,
    spare: &mut Option<Bytes>,
) -> Result<Bytes, AllocError>
    ensures { IfOk result (λ bytes. bytes ≡ output part) }
{
    let all = part.unwrap_or(summary_of(0));
    let mut bytes = empty_output(alloc, spare, 24)?;
    bytes.extend_from_slice(&all.sum.to_be_bytes())?;
    bytes.extend_from_slice(&all.least.to_be_bytes())?;
    bytes.extend_from_slice(&all.greatest.to_be_bytes())?;
    Ok(bytes)
}
