//! The check of a profile's parameters by the job that it names.
ghost use Rattle.std.specs.Prelude.{◌≡◌};
ghost use Rattle.jobs.specs.Kinds.{bad_param};

use crate::bank::Bank;
use crate::cloud::Cloud;
use crate::guard::Guard;
use det_values::{JobKind, Params};
use job::Job;

/// The least parameter that a job refuses, counted from 0.
fn job_bad_param<J: Job>(params: &Params, events: u16) -> Option<u8>
    ensures { result ≡ J.meaning.bad_param params.now events }
{
    match J::make(params, events) {
        Ok(_) => None,
        Err(bad) => Some(bad.index),
    }
}

/// The least parameter, counted from 0, that the job of a kind refuses with this number of events.
/// It allocates nothing.
pub fn bad_param(kind: JobKind, params: &Params, events: u16) -> Option<u8>
    ensures { result ≡ bad_param kind params.now events }
{
    match kind {
        JobKind::Bank => job_bad_param::<Bank>(params, events),
        JobKind::Cloud => job_bad_param::<Cloud>(params, events),
        JobKind::Guard => job_bad_param::<Guard>(params, events),
    }
}
