//! The implementation of `Job` for `Guard`.

ghost use Rattle.std.specs.Prelude.{◌≡◌, []};
ghost use Rattle.det_client.specs.State.{next_time};

use crate::guard::bounds::upper_bound_param;
use crate::guard::channel::{channel_after, channel_bytes, reading};
use crate::guard::report::output;
use crate::guard::{Bounds, Channel, Guard};
use det_client::Client;
use det_client::element_random::ElementRandom;
use det_values::{Bytes, Container, Limited, Params};
use job::event_cache::EventCache;
use job::{BadParam, Conclusion, Job, JobFault, JobStart};
use job_shared::{
    NewestSamples, first_elements, natural_param, newest_samples, no_more_params, put_drawn_bytes,
    whole_param,
};
use std::alloc::{AllocError, Global};

/// The number of corrections in all finished cycles. It saturates at `u64::MAX`.
#[derive(Clone, Copy, Debug, PartialEq, Eq, Drop)]
pub struct Total {
    pub(crate) corrections: u64,
}

/// The plan of a cycle: the newest sample of each event, and the next activation time, if it is
/// available.
#[derive(Debug, Drop)]
pub struct Plan {
    pub(crate) samples: NewestSamples,
    pub(crate) next: Option<u64>,
}

/// The numbers of corrected channels, in order.
pub type Corrections = Limited<u32, 65536>;

/// An empty list, in the memory of `spare` if there is one.
fn empty_corrections(alloc: Global, spare: Option<Corrections>) -> Corrections
    ensures { result ≡ [] }
{
    match spare {
        Some(mut corrections) => {
            corrections.clear();
            corrections
        }
        None => Corrections::new(alloc),
    }
}

/// The samples of a plan.
fn plan_samples(plan: Plan) -> NewestSamples
    ensures { result ≡ plan.samples }
{
    let Plan { samples, next: _ } = plan;
    samples
}

/// The next activation time, if it is available.
fn next_time(client: &Client) -> Option<u64>
    ensures { result ≡ next_time client.now.cycle_time client.now.time }
{
    client.get_next_activation_time().ok()
}

impl Job for Guard {
    ghost use Rattle.jobs.specs.guard.Meaning.{meaning};
    ghost use Rattle.jobs.specs.guard.Ranges.{Covers, Own, Fit};
    ghost use Rattle.jobs.specs.guard.Laws.{guard_laws};

    type Globals = Total;

    type Element = Channel;

    type Plan = Plan;

    type Part = Corrections;

    ghost meaning = { meaning };

    ghost Covers = { Covers };

    ghost Own = { Own };

    ghost Fit = { Fit };

    ghost laws = { guard_laws };

    fn make(params: &Params, events: u16) -> Result<Guard, BadParam> {
        let params = params.as_slice();
        let channels = natural_param(params, 0, 1, 65536)?;
        let low = whole_param(params, 1, -1_000_000_000_000, 1_000_000_000_000)?;
        let high = upper_bound_param(params, low)?;
        let limit = natural_param(params, 3, 1, 1000)?;
        let most = natural_param(params, 4, 0, 65536)?;
        no_more_params(params, 5)?;
        Ok(Guard {
            channels,
            bounds: Bounds::new(low, high),
            limit: limit as u16,
            most,
            events,
        })
    }

    fn start(
        &self,
        alloc: Global,
        _client: &mut Client,
    ) -> Result<JobStart<Total, Channel>, AllocError> {
        Ok(JobStart {
            globals: Total { corrections: 0 },
            elements: first_elements(alloc, self, self.channels)?,
        })
    }

    fn prepare(
        &self,
        alloc: Global,
        _globals: &Total,
        _elements: &Container<Channel>,
        cache: &EventCache,
        client: &mut Client,
        spare: &mut Option<Plan>,
    ) -> Result<Plan, JobFault> {
        Ok(Plan {
            samples: newest_samples(alloc, cache, spare.take().map(plan_samples))?,
            next: next_time(client),
        })
    }

    fn passes(&self, _plan: &Plan) -> u8 {
        1
    }

    fn unit(&self, alloc: Global, spare: &mut Option<Corrections>) -> Corrections {
        empty_corrections(alloc, spare.take())
    }

    #[inline(always)]
    fn run(
        &self,
        _alloc: Global,
        plan: &Plan,
        _carry: &Corrections,
        _pass: u8,
        element: &Channel,
        _random: &mut ElementRandom,
        part: &mut Corrections,
    ) -> Result<Channel, JobFault> {
        let value = reading(&plan.samples, element);
        channel_after(self, element, value, part)
    }

    #[inline(always)]
    #[tactic(auto, using(crate::specs::guard::Laws::parts_joined))]
    fn merge(&self, left: &mut Corrections, right: &mut Corrections) -> Result<(), AllocError> {
        left.extend_from_slice(right.as_slice())
    }

    #[inline(always)]
    fn put_element(&self, element: &Channel, out: &mut Vec<u8>) -> Result<(), AllocError> {
        Ok(out.extend_from_slice(&channel_bytes(element))?)
    }

    #[inline(always)]
    fn put_drawn(
        &self,
        element: &Channel,
        draws: u32,
        out: &mut Vec<u8>,
    ) -> Result<(), AllocError> {
        put_drawn_bytes(&channel_bytes(element), draws, out)
    }

    fn conclude(
        &self,
        alloc: Global,
        globals: &Total,
        plan: &Plan,
        part: &Corrections,
        spare: &mut Option<Bytes>,
    ) -> Result<Conclusion<Total>, JobFault> {
        let count = part.len();
        if count > self.most as usize {
            return Err(JobFault::Code(2));
        }
        let corrections = globals.corrections.saturating_add(count as u64);
        Ok(Conclusion {
            globals: Total { corrections },
            output: output(corrections, part, plan.next, alloc, spare)?,
        })
    }
}
