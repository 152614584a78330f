//! The implementation of `Job` for `Bank`.

use crate::bank::channel::{channel_bytes, level_after};
use crate::bank::summary::{output, summary_of};
use crate::bank::{Bank, Channel, Summary};
use det_client::Client;
use det_client::element_random::ElementRandom;
use det_values::{Bytes, Container, Params};
use job::event_cache::EventCache;
use job::{BadParam, Conclusion, Job, JobFault, JobStart};
use job_shared::{
    NewestSamples, first_elements, join_parts, natural_param, newest_samples, no_more_params,
    put_drawn_bytes, sample_of,
};
use std::alloc::{AllocError, Global};

/// The bank keeps nothing between cycles besides its channels.
#[derive(Clone, Copy, Debug, PartialEq, Eq, Drop)]
pub struct NoGlobals;

impl Job for Bank {
    ghost use Rattle.jobs.specs.bank.Meaning.{meaning};
    ghost use Rattle.jobs.specs.bank.Ranges.{Covers, Own, Fit};
    ghost use Rattle.jobs.specs.bank.Laws.{bank_laws};

    type Globals = NoGlobals;

    type Element = Channel;

    /// The newest sample of each event.
    type Plan = NewestSamples;

    /// None for no channel.
    type Part = Option<Summary>;

    ghost meaning = { meaning };

    ghost Covers = { Covers };

    ghost Own = { Own };

    ghost Fit = { Fit };

    ghost laws = { bank_laws };

    fn make(params: &Params, events: u16) -> Result<Bank, BadParam> {
        let params = params.as_slice();
        let channels = natural_param(params, 0, 1, 65536)?;
        let shift = natural_param(params, 1, 0, 16)?;
        no_more_params(params, 2)?;
        Ok(Bank {
            channels,
            shift,
            events,
        })
    }

    fn start(
        &self,
        alloc: Global,
        _client: &mut Client,
    ) -> Result<JobStart<NoGlobals, Channel>, AllocError> {
        Ok(JobStart {
            globals: NoGlobals,
            elements: first_elements(alloc, self, self.channels)?,
        })
    }

    fn prepare(
        &self,
        alloc: Global,
        _globals: &NoGlobals,
        _elements: &Container<Channel>,
        cache: &EventCache,
        _client: &mut Client,
        spare: &mut Option<NewestSamples>,
    ) -> Result<NewestSamples, JobFault> {
        Ok(newest_samples(alloc, cache, spare.take())?)
    }

    fn passes(&self, _plan: &NewestSamples) -> u8 {
        1
    }

    fn unit(&self, _alloc: Global, _spare: &mut Option<Option<Summary>>) -> Option<Summary> {
        None
    }

    #[inline(always)]
    fn run(
        &self,
        _alloc: Global,
        plan: &NewestSamples,
        _carry: &Option<Summary>,
        _pass: u8,
        element: &Channel,
        _random: &mut ElementRandom,
        part: &mut Option<Summary>,
    ) -> Result<Channel, JobFault> {
        let target = sample_of(plan, u32::from(element.event));
        let level = level_after(target, element.level, self.shift);
        *part = join_parts(*part, Some(summary_of(level)));
        Ok(Channel {
            event: element.event,
            level,
        })
    }

    #[inline(always)]
    #[tactic(auto, using(crate::specs::bank::Laws::parts_joined))]
    fn merge(
        &self,
        left: &mut Option<Summary>,
        right: &mut Option<Summary>,
    ) -> Result<(), AllocError> {
        *left = join_parts(*left, *right);
        Ok(())
    }

    #[inline(always)]
    fn put_element(&self, element: &Channel, out: &mut Vec<u8>) -> Result<(), AllocError> {
        let skipped = if self.events >= 2 { 0 } else { 2 };
        Ok(out.extend_from_slice(&channel_bytes(element)[skipped..])?)
    }

    #[inline(always)]
    fn put_drawn(
        &self,
        element: &Channel,
        draws: u32,
        out: &mut Vec<u8>,
    ) -> Result<(), AllocError> {
        let bytes = channel_bytes(element);
        if self.events >= 2 {
            put_drawn_bytes(&bytes, draws, out)
        } else {
            put_drawn_bytes(&bytes[2..], draws, out)
        }
    }

    fn conclude(
        &self,
        alloc: Global,
        _globals: &NoGlobals,
        _plan: &NewestSamples,
        part: &Option<Summary>,
        spare: &mut Option<Bytes>,
    ) -> Result<Conclusion<NoGlobals>, JobFault> {
        Ok(Conclusion {
            globals: NoGlobals,
            output: output(*part, alloc, spare)?,
        })
    }
}
