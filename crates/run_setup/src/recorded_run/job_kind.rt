//! The shipped job that a header names, if it takes the parameters.
ghost use Rattle.std.specs.Prelude.{◌≡◌, length, None, IfSome};
ghost use Rattle.jobs.specs.Kinds.{bad_param};
ghost use Rattle.run_setup.specs.recorded_run.Run.{kind_of};

use det_values::{JobKind, Profile};
use jobs::bad_param;

/// The shipped job with a profile's number. None if there is none, or if it refuses a parameter.
pub(crate) fn kind_of(profile: &Profile) -> Option<JobKind>
    ensures kind { result ≡ kind_of profile.now }
    ensures good { IfSome result (λ kind.
        bad_param kind profile.now.params (length profile.now.events) ≡ None) }
{
    let kind = JobKind::from_number(profile.job)?;
    let events = profile.events.len() as u16;
    match bad_param(kind, &profile.params, events) {
        None => Some(kind),
        Some(_) => None,
    }
}
