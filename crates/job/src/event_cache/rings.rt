//! The two rings of one event: its window, and the samples that wait.

ghost use Rattle.std.specs.Prelude.{◌≡◌, ◌<◌, List, [], ◌∷◌, ◌++◌, length, IfOk, slice_index_or};
ghost use Rattle.circular_buffer.specs.Buffer.{last_item, keep_last};

use circular_buffer::HeapCircularBuffer;
use det_values::{EventSpec, Policy, Sample};
use std::alloc::{AllocError, Global};
use std::marker::Model;
use std::mem;

/// The window of one event, and the values that arrived since the last turn.
#[derive(Debug, Drop)]
pub struct EventRings {
    policy: Policy,
    seen: HeapCircularBuffer<i64>,
    arriving: HeapCircularBuffer<i64>,
}

impl Model for EventRings {
    ghost use Rattle.std.specs.Prelude.{◌≡◌};
    ghost use Rattle.job.specs.event_cache.Rings.{Rings};

    ghost Value = { Rings };

    ghost view = { λ r. record {
      policy = r.policy;
      capacity = r.arriving.capacity;
      seen = r.seen.items;
      arriving = r.arriving.items;
    } };

    ghost invariant = { λ r. r.seen.capacity ≡ r.arriving.capacity };
}

impl EventRings {
    ghost use Rattle.job.specs.event_cache.Rings.{turned, joined};

    /// Both rings of an event, empty.
    pub fn new(alloc: Global, spec: &EventSpec) -> Result<EventRings, AllocError>
        ensures { IfOk result (λ r. r
            ≡ record {
              policy = spec.now.policy;
              capacity = spec.now.capacity;
              seen = [];
              arriving = [];
            }) }
    {
        let capacity = usize::from(spec.capacity);
        Ok(EventRings {
            policy: spec.policy,
            seen: HeapCircularBuffer::with_capacity(alloc, capacity)?,
            arriving: HeapCircularBuffer::with_capacity(alloc, capacity)?,
        })
    }

    /// Adds the value of a sample that arrived. If the ring is full, the oldest value is dropped.
    pub fn arrive(&mut self, sample: Sample)
        ensures { self.new ≡ joined self.old sample.value }
    {
        self.arriving.push_back(sample.value);
    }

    /// Moves the values that arrived into the window: after its values (`Last`) or in their place
    /// (`Fresh`).
    pub fn turn(&mut self)
        ensures { self.new ≡ turned self.old }
    {
        match self.policy {
            Policy::Last => append(&mut self.seen, &self.arriving),
            Policy::Fresh => mem::swap(&mut self.seen, &mut self.arriving),
        }
        self.arriving.clear();
    }

    /// The number of values in the window.
    pub fn len(&self) -> usize
        ensures { result ≡ length self.now.seen }
    {
        self.seen.len()
    }

    /// A value of the window. The oldest has the index 0.
    pub fn value(&self, index: usize) -> i64
        requires { index < length self.now.seen }
        ensures { result ≡ slice_index_or self.now.seen index result }
    {
        match self.seen.get(index) {
            Some(value) => *value,
            None => 0,
        }
    }

    /// The last value of the window, or None if it is empty.
    pub fn newest_sample(&self) -> Option<i64>
        ensures { result ≡ last_item self.now.seen }
    {
        self.seen.back().copied()
    }
}

/// Adds the items of one ring at the end of another, which keeps the latest that fit.
#[tactic(auto, using(crate::proofs::lemmas::event_cache::Keeping::kept_twice))]
fn append(to: &mut HeapCircularBuffer<i64>, from: &HeapCircularBuffer<i64>)
    ensures items { to.new.items ≡ keep_last to.old.capacity (to.old.items ++ from.now.items) }
    ensures capacity { to.new.capacity ≡ to.old.capacity }
{
    let (front, back) = from.as_slices();
    to.extend_from_slice(front);
    to.extend_from_slice(back);
}
