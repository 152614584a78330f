//! The windows of all events of a client.

ghost use Rattle.std.specs.Prelude.{◌≡◌, ◌<◌, ◌≤◌, List, [], ◌∷◌, ◌++◌, length, IfOk, map};
ghost use Rattle.std.specs.Prelude.{slice_index_or};
ghost use Rattle.circular_buffer.specs.Buffer.{last_item};

use crate::event_cache::rings::EventRings;
use det_values::{Events, Sample};
use std::alloc::{AllocError, Global};
use std::marker::Model;

/// The windows of the events of a client, and the samples that arrived since the last turn.
#[derive(Debug, Drop)]
pub struct EventCache {
    rings: Vec<EventRings>,
}

impl Model for EventCache {
    ghost use Rattle.std.specs.Prelude.{◌≤◌, List, length};
    ghost use Rattle.std.specs.List.{All};
    ghost use Rattle.job.specs.event_cache.Rings.{Rings, IsInLimits};

    ghost Value = { List Rings };

    ghost view = { λ c. c.rings.items };

    ghost invariant = { λ c. (length c.rings.items ≤ 256) × All IsInLimits c.rings.items };
}

impl EventCache {
    ghost use Rattle.det_values.specs.Limits.{IsSampleValue};
    ghost use Rattle.det_values.specs.Values.{SampleValue, EventSpecValue};
    ghost use Rattle.job.specs.event_cache.Rings.{windows, turned};
    ghost use Rattle.job.specs.event_cache.Windows.{HasSeen, AreWindows, windows_after, window_of};
    ghost use Rattle.job.specs.event_cache.Windows.{next_windows};

    /// A cache of these events, before any sample.
    #[tactic(auto, using(crate::proofs::lemmas::event_cache::Rounds::made_more))]
    pub fn new(alloc: Global, events: &Events) -> Result<EventCache, AllocError>
        ensures seen { IfOk result (λ cache. HasSeen cache events.now [] []) }
        ensures count { IfOk result (λ cache. length cache ≡ length events.now) }
        ensures windows { IfOk result (λ cache. windows cache ≡ windows_after events.now []) }
    {
        let mut rings = Vec::new(alloc);
        for spec in events.as_slice() {
            let empty = EventRings::new(alloc, spec)?;
            rings.push(empty).map_err(|_| AllocError)?;
        }
        Ok(EventCache { rings })
    }

    /// Adds a sample. No window shows it before the next `turn`. If as many samples of its event
    /// wait as its capacity, the oldest of them is dropped.
    #[tactic(auto, using(crate::proofs::lemmas::event_cache::Rounds::windows_kept, crate::proofs::lemmas::event_cache::Rounds::seen_arrived))]
    pub fn arrive(&mut self, sample: Sample)
        requires event { sample.event < length self.old }
        ensures count { length self.new ≡ length self.old }
        ensures windows { windows self.new ≡ windows self.old }
        ensures seen { (specs : List EventSpecValue) (rounds : List (List SampleValue))
            (arrived : List SampleValue) → HasSeen self.old specs rounds arrived
            → HasSeen self.new specs rounds (arrived ++ sample ∷ []) }
    {
        self.rings[usize::from(sample.event)].arrive(sample);
    }

    /// Moves the samples that arrived into the windows, by the policies of their events.
    #[tactic(auto, using(crate::proofs::lemmas::event_cache::Rounds::turned_more))]
    pub fn turn(&mut self)
        ensures turned { self.new ≡ map turned self.old }
        ensures count { length self.new ≡ length self.old }
        ensures next { (specs : List EventSpecValue) (rounds : List (List SampleValue))
            (arrived : List SampleValue) → HasSeen self.old specs rounds arrived
            → windows self.new ≡ next_windows specs (windows self.old) arrived }
        ensures seen { (specs : List EventSpecValue) (rounds : List (List SampleValue))
            (arrived : List SampleValue) → HasSeen self.old specs rounds arrived
            → HasSeen self.new specs (rounds ++ arrived ∷ []) [] }
    {
        for event in 0..self.rings.len() {
            self.rings[event].turn();
        }
    }

    /// The number of events.
    #[tactic(auto, using(crate::proofs::lemmas::event_cache::Rounds::are_windows, crate::proofs::lemmas::event_cache::Rounds::seen_windows))]
    pub fn events(&self) -> u16
        ensures count { result ≡ length self.now }
        ensures few { result ≤ 256 }
        ensures windows { AreWindows result (windows self.now) }
        ensures seen { (specs : List EventSpecValue) (rounds : List (List SampleValue))
            (arrived : List SampleValue) → HasSeen self.now specs rounds arrived
            → windows self.now ≡ windows_after specs rounds }
    {
        self.rings.len() as u16
    }

    /// The number of values in the window of an event.
    #[tactic(auto, using(crate::proofs::lemmas::event_cache::Rounds::window_is, crate::proofs::lemmas::event_cache::Rounds::seen_windows))]
    pub fn len(&self, event: u16) -> usize
        requires { event < length self.now }
        ensures window { result ≡ length (window_of (windows self.now) event) }
        ensures seen { (specs : List EventSpecValue) (rounds : List (List SampleValue))
            (arrived : List SampleValue) → HasSeen self.now specs rounds arrived
            → result ≡ length (window_of (windows_after specs rounds) event) }
    {
        self.rings[usize::from(event)].len()
    }

    /// A value of the window of an event. The oldest has the index 0.
    #[tactic(auto, using(crate::proofs::lemmas::event_cache::Rounds::window_is, crate::proofs::lemmas::event_cache::Rounds::seen_windows))]
    pub fn sample(&self, event: u16, index: usize) -> i64
        requires event { event < length self.now }
        requires index { index < length (window_of (windows self.now) event) }
        ensures value { result ≡ slice_index_or (window_of (windows self.now) event) index result }
        ensures seen { (specs : List EventSpecValue) (rounds : List (List SampleValue))
            (arrived : List SampleValue) → HasSeen self.now specs rounds arrived
            → result ≡ slice_index_or (window_of (windows_after specs rounds) event) index result }
        ensures limits { IsSampleValue result }
    {
        self.rings[usize::from(event)].value(index)
    }

    /// The last value of the window of an event, or None if the window is empty.
    #[tactic(auto, using(crate::proofs::lemmas::event_cache::Rounds::window_is, crate::proofs::lemmas::event_cache::Rounds::seen_windows))]
    pub fn newest_sample(&self, event: u16) -> Option<i64>
        requires { event < length self.now }
        ensures window { result ≡ last_item (window_of (windows self.now) event) }
        ensures seen { (specs : List EventSpecValue) (rounds : List (List SampleValue))
            (arrived : List SampleValue) → HasSeen self.now specs rounds arrived
            → result ≡ last_item (window_of (windows_after specs rounds) event) }
    {
        self.rings[usize::from(event)].newest_sample()
    }
}
