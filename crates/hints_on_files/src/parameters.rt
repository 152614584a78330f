//! Hints on parameters that a job refuses.
ghost use Rattle.std.specs.Prelude.{◌≡◌, ℕ, ℤ, List, Some, IfSome, true};
ghost use Rattle.jobs.specs.bank.Meaning as bank_job;
ghost use Rattle.jobs.specs.cloud.Meaning as cloud_job;
ghost use Rattle.jobs.specs.guard.Meaning as guard_job;
ghost use Rattle.job_shared.specs.Params.{param};
ghost use Rattle.jobs.specs.Kinds.{bad_param};
ghost use Rattle.hints_on_files.specs.Kinds.{is_of_parameter};
ghost use Rattle.hints_on_files.specs.Parameters.{HintHolds, IsOutside, IsRangeBy};

use crate::hint::Hint;
use det_values::{Events, JobKind, Params};
use jobs::bad_param;
use thiserror::Error;

/// The name of a parameter, and its least and greatest value.
#[derive(Clone, Copy, Debug, Drop, Error)]
#[error("{0}, {1} to {2}")]
pub struct ParameterRange(pub &'static str, pub i64, pub i64);

fn bank(index: u8) -> Option<ParameterRange>
    ensures { IsRangeBy bank_job.bad_param result index }
{
    match index {
        0 => Some(ParameterRange("channels", 1, 65_536)),
        1 => Some(ParameterRange("shift", 0, 16)),
        _ => None,
    }
}

fn cloud(index: u8) -> Option<ParameterRange>
    ensures { IsRangeBy cloud_job.bad_param result index }
{
    match index {
        0 => Some(ParameterRange("particles", 1, 65_536)),
        1 => Some(ParameterRange("spread", 1, 1_000_000)),
        2 => Some(ParameterRange("reseed", 0, 1_000_000)),
        3 => Some(ParameterRange("far", 0, 4_000_000_000_000)),
        _ => None,
    }
}

/// The range of `high` begins at the guard's `low`.
fn guard(low: i64, index: u8) -> Option<ParameterRange>
    ensures { (params : List ℤ) (events : ℕ) → low ≡ param params 1
        → guard_job.bad_param params events ≡ Some index → IsOutside result index params }
{
    match index {
        0 => Some(ParameterRange("channels", 1, 65_536)),
        1 => Some(ParameterRange("low", -1_000_000_000_000, 1_000_000_000_000)),
        2 => Some(ParameterRange("high", low, 1_000_000_000_000)),
        3 => Some(ParameterRange("limit", 1, 1_000)),
        4 => Some(ParameterRange("most", 0, 65_536)),
        _ => None,
    }
}

/// The range of the parameter of this number. None if the job has fewer.
fn range_of(job: JobKind, params: &[i64], index: u8) -> Option<ParameterRange>
    ensures { (events : ℕ) → bad_param job params.now events ≡ Some index
        → IsOutside result index params.now }
{
    match job {
        JobKind::Bank => bank(index),
        JobKind::Cloud => cloud(index),
        JobKind::Guard => guard(params.get(1).copied().unwrap_or(0), index),
    }
}

/// The hint on the least parameter that a job refuses. None if it takes all of them.
pub fn parameter_hint(job: JobKind, params: &Params, events: &Events) -> Option<Hint>
    ensures kind { IfSome result (λ hint. is_of_parameter hint ≡ true) }
    ensures holds { IfSome result (λ hint. HintHolds hint params.now) }
{
    let index = bad_param(job, params, events.len() as u16)?;
    let range = range_of(job, params.as_slice(), index);
    let job = match job {
        JobKind::Bank => "bank",
        JobKind::Cloud => "cloud",
        JobKind::Guard => "guard",
    };
    Some(match range {
        Some(range) => Hint::Parameter(job, index, range),
        None => Hint::TooManyParameters(job, index),
    })
}
