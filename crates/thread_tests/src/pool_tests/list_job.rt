//! A job for tests. Its part is the list of the elements met, so a wrong order of joining is
//! visible.

ghost use Rattle.std.specs.Prelude.{◌≡◌, ℕ, ◌%◌};
ghost use Rattle.det_client.specs.element_random.RandomStreams.{StandsFor};
ghost use Rattle.thread_tests.specs.pool_tests.Meaning.{byte_after};

use crate::pool_tests::watch::Watch;
use det_client::Client;
use det_client::element_random::ElementRandom;
use det_values::{Bytes, Container, Limited, Params};
use job::event_cache::EventCache;
use job::{BadParam, Conclusion, Job, JobFault, JobStart};
use job_heavy::{NoGlobals, NoPlan};
use std::alloc::{AllocError, Global};
use std::sync::Arc;

/// Elements from `limit` on refuse, with their value as the code. Of the others an odd one becomes
/// a random byte, for which it draws one number, and an even one stays. `watch`, if there is one,
/// sees each element that is run.
#[derive(Drop)]
pub struct ListJob {
    pub limit: u32,
    pub watch: Option<Arc<Watch, Global>>,
    pub events: u16,
}

/// The elements that a pass met, in order.
pub type Met = Limited<u8, 65536>;

/// The next value of a byte: an even byte stays, an odd one becomes random.
fn byte_after(byte: u8, random: &mut ElementRandom) -> u8
    ensures byte { (key : ℕ) → StandsFor random.old key 0 → result ≡ byte_after byte key }
    ensures draws { (key : ℕ) → StandsFor random.old key 0 → random.new.draws ≡ byte % 2 }
{
    if byte % 2 == 0 {
        byte
    } else {
        (random.get_random() % 256) as u8
    }
}

impl Job for ListJob {
    ghost use Rattle.thread_tests.specs.pool_tests.Meaning.{meaning, Covers, Own, Fit};
    ghost use Rattle.thread_tests.specs.pool_tests.Laws.{list_laws};

    type Globals = NoGlobals;

    type Element = u8;

    type Plan = NoPlan;

    type Part = Met;

    ghost meaning = { meaning };

    ghost Covers = { Covers };

    ghost Own = { Own };

    ghost Fit = { Fit };

    ghost laws = { list_laws };

    fn make(_params: &Params, events: u16) -> Result<ListJob, BadParam> {
        Ok(ListJob {
            limit: 256,
            watch: None,
            events,
        })
    }

    fn start(
        &self,
        alloc: Global,
        _client: &mut Client,
    ) -> Result<JobStart<NoGlobals, u8>, AllocError> {
        Ok(JobStart {
            globals: NoGlobals,
            elements: Container::new(alloc),
        })
    }

    fn prepare(
        &self,
        _alloc: Global,
        _globals: &NoGlobals,
        _elements: &Container<u8>,
        _cache: &EventCache,
        _client: &mut Client,
        _spare: &mut Option<NoPlan>,
    ) -> Result<NoPlan, JobFault> {
        Ok(NoPlan)
    }

    fn passes(&self, _plan: &NoPlan) -> u8 {
        1
    }

    fn unit(&self, alloc: Global, _spare: &mut Option<Met>) -> Met {
        Met::new(alloc)
    }

    fn run(
        &self,
        _alloc: Global,
        _plan: &NoPlan,
        _carry: &Met,
        _pass: u8,
        element: &u8,
        random: &mut ElementRandom,
        part: &mut Met,
    ) -> Result<u8, JobFault> {
        let byte = *element;
        if let Some(watch) = &self.watch {
            watch.see(byte);
        }
        if u32::from(byte) >= self.limit {
            return Err(JobFault::Code(u32::from(byte)));
        }
        part.push(byte)?;
        Ok(byte_after(byte, random))
    }

    fn merge(&self, left: &mut Met, right: &mut Met) -> Result<(), AllocError> {
        left.extend_from_slice(right.as_slice())
    }

    fn put_element(&self, element: &u8, out: &mut Vec<u8>) -> Result<(), AllocError> {
        Ok(out.extend_from_slice(&[*element])?)
    }

    fn conclude(
        &self,
        alloc: Global,
        _globals: &NoGlobals,
        _plan: &NoPlan,
        _part: &Met,
        _spare: &mut Option<Bytes>,
    ) -> Result<Conclusion<NoGlobals>, JobFault> {
        Ok(Conclusion {
            globals: NoGlobals,
            output: Bytes::new(alloc),
        })
    }
}
