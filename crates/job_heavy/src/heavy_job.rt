//! The implementation of `Job` for `Heavy`.

use crate::count::{add_counts, output};
use crate::state::fold_words;
use crate::{Heavy, State};
use det_client::Client;
use det_client::element_random::ElementRandom;
use det_values::{Bytes, Container, Params};
use job::event_cache::EventCache;
use job::{BadParam, Conclusion, Job, JobFault, JobStart};
use job_shared::{first_elements, natural_param, no_more_params};
use std::alloc::{AllocError, Global};

/// The job keeps nothing between cycles besides its elements.
#[derive(Clone, Copy, Debug, PartialEq, Eq, Drop)]
pub struct NoGlobals;

/// The passes need no plan.
#[derive(Clone, Copy, Debug, PartialEq, Eq, Drop)]
pub struct NoPlan;

impl Job for Heavy {
    ghost use Rattle.job_heavy.specs.Meaning.{meaning};
    ghost use Rattle.job_heavy.specs.Ranges.{Covers, Own, Fit};
    ghost use Rattle.job_heavy.specs.Laws.{heavy_laws};

    type Globals = NoGlobals;

    type Element = State;

    type Plan = NoPlan;

    /// The number of elements that ran.
    type Part = u64;

    ghost meaning = { meaning };

    ghost Covers = { Covers };

    ghost Own = { Own };

    ghost Fit = { Fit };

    ghost laws = { heavy_laws };

    fn make(params: &Params, events: u16) -> Result<Heavy, BadParam> {
        let params = params.as_slice();
        let elements = natural_param(params, 0, 1, 65536)?;
        no_more_params(params, 1)?;
        Ok(Heavy { elements, events })
    }

    fn start(
        &self,
        alloc: Global,
        _client: &mut Client,
    ) -> Result<JobStart<NoGlobals, State>, AllocError> {
        Ok(JobStart {
            globals: NoGlobals,
            elements: first_elements(alloc, self, self.elements)?,
        })
    }

    fn prepare(
        &self,
        _alloc: Global,
        _globals: &NoGlobals,
        _elements: &Container<State>,
        _cache: &EventCache,
        _client: &mut Client,
        _spare: &mut Option<NoPlan>,
    ) -> Result<NoPlan, JobFault> {
        Ok(NoPlan)
    }

    fn passes(&self, _plan: &NoPlan) -> u8 {
        1
    }

    fn unit(&self, _alloc: Global, _spare: &mut Option<u64>) -> u64 {
        0
    }

    fn run(
        &self,
        _alloc: Global,
        _plan: &NoPlan,
        _carry: &u64,
        _pass: u8,
        element: &State,
        random: &mut ElementRandom,
        part: &mut u64,
    ) -> Result<State, JobFault> {
        *part = add_counts(*part, 1);
        Ok(State {
            folded: fold_words(element.folded, random),
        })
    }

    fn merge(&self, left: &mut u64, right: &mut u64) -> Result<(), AllocError> {
        *left = add_counts(*left, *right);
        Ok(())
    }

    #[inline(always)]
    fn put_element(&self, element: &State, out: &mut Vec<u8>) -> Result<(), AllocError> {
        Ok(out.extend_from_slice(&element.folded.to_be_bytes())?)
    }

    fn conclude(
        &self,
        alloc: Global,
        _globals: &NoGlobals,
        _plan: &NoPlan,
        part: &u64,
        spare: &mut Option<Bytes>,
    ) -> Result<Conclusion<NoGlobals>, JobFault> {
        Ok(Conclusion {
            globals: NoGlobals,
            output: output(*part, alloc, spare)?,
        })
    }
}
