//! The newest sample of one event or of all, read from the event cache.

ghost use Rattle.std.specs.Prelude.{◌≡◌, ℕ, ◌≤◌, [], length, IfOk};
ghost use Rattle.job.specs.event_cache.Rings.{windows};
ghost use Rattle.job_shared.specs.Samples.{newest_sample, all_newest, sample_of, AreSamples};
ghost use Rattle.job_shared.specs.Samples.{IsSample};

use det_values::Limited;
use job::event_cache::EventCache;
use std::alloc::{AllocError, Global};

/// The newest sample of each event, or None if its window is empty.
pub type NewestSamples = Limited<Option<i64>, 256>;

/// The newest sample of an event, or None if there is no such event or its window is empty.
pub fn newest_sample(cache: &EventCache, event: u16) -> Option<i64>
    ensures sample { result ≡ newest_sample (windows cache.now) event }
    ensures limits { IsSample result }
{
    if event < cache.events() {
        cache.newest_sample(event)
    } else {
        None
    }
}

/// An empty list, in the memory of `spare` or in new memory for `events` items.
fn empty_samples(
    alloc: Global,
    events: u16,
    spare: Option<NewestSamples>,
) -> Result<NewestSamples, AllocError>
    ensures { IfOk result (λ samples. samples ≡ []) }
{
    match spare {
        Some(mut samples) => {
            samples.clear();
            Ok(samples)
        }
        None => Ok(NewestSamples::from_vec(Vec::with_capacity(alloc, events as usize)?)),
    }
}

/// The newest sample of each event. A spare list that held as many needs no new memory.
pub fn newest_samples(
    alloc: Global,
    cache: &EventCache,
    spare: Option<NewestSamples>,
) -> Result<NewestSamples, AllocError>
    ensures samples { IfOk result (λ samples. samples ≡ all_newest (windows cache.now)) }
    ensures limits { (events : ℕ) → length (windows cache.now) ≡ events
        → IfOk result (AreSamples events) }
{
    let mut samples = empty_samples(alloc, cache.events(), spare)?;
    for event in 0..cache.events() {
        samples.push(cache.newest_sample(event))?;
    }
    Ok(samples)
}

/// The sample of an event among these, or None if there is no such event.
pub fn sample_of(samples: &NewestSamples, event: u32) -> Option<i64>
    ensures { result ≡ sample_of samples.now event }
{
    match samples.as_slice().get(event as usize) {
        Some(sample) => *sample,
        None => None,
    }
}
