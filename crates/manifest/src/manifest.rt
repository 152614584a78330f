//! The content of a manifest.
ghost use Rattle.std.specs.Prelude.{◌≡◌, IfOk, IfSome, IfNone, None, option_map};
ghost use Rattle.std.specs.List.{All};
ghost use Rattle.det_values.specs.Limits.{IsCycleTime};
ghost use Rattle.manifest.specs.Limits.{IsWorkers, IsEvent, IsNeeds};
ghost use Rattle.manifest.specs.Faults.{first_duplicate};
ghost use Rattle.manifest.specs.Profiles.{profile_of};

use crate::{Needs, PlatformName};
use det_values::{Events, Format, JobKind, Params, Profile};
use std::alloc::{AllocError, Global};
use std::marker::Model;

/// A manifest without a fault. Its events have different names.
#[derive(Drop)]
pub struct Manifest {
    pub(crate) kind: JobKind,
    pub(crate) cycle_time: u64,
    pub(crate) workers: u32,
    pub(crate) params: Params,
    pub(crate) events: Events,
    pub(crate) platform: Option<PlatformName>,
    pub(crate) init_needs: Option<Needs>,
    pub(crate) run_needs: Option<Needs>,
}

impl Model for Manifest {
    ghost use Rattle.std.specs.Prelude.{◌≡◌, None};
    ghost use Rattle.std.specs.List.{All};
    ghost use Rattle.std.specs.Option.{ForSome};
    ghost use Rattle.det_values.specs.Limits.{IsCycleTime};
    ghost use Rattle.manifest.specs.Values.{ManifestValue};
    ghost use Rattle.manifest.specs.Limits.{IsWorkers, IsEvent, IsNeeds};
    ghost use Rattle.manifest.specs.Faults.{first_duplicate};

    ghost Value = { ManifestValue };

    ghost view = { λ m. record {
      kind = m.kind;
      cycle_time = m.cycle_time;
      workers = m.workers;
      params = m.params;
      events = m.events;
      platform = m.platform;
      init_needs = m.init_needs;
      run_needs = m.run_needs;
    } };

    ghost invariant = { λ m. IsCycleTime m.cycle_time × IsWorkers m.workers
        × All IsEvent m.events × (first_duplicate m.events ≡ None)
        × ForSome m.init_needs IsNeeds × ForSome m.run_needs IsNeeds };
}

impl Manifest {
    /// The profile of a client with this seed. Its format is 2, and its cycle time is from 1 to
    /// 2^63 - 1 nanoseconds.
    pub fn profile(&self, alloc: Global, seed: u64) -> Result<Profile, AllocError>
        ensures profile { IfOk result (λ p. p ≡ profile_of self.now seed) }
        ensures cycle_time { IsCycleTime self.now.cycle_time }
        ensures events { All IsEvent self.now.events }
        ensures distinct { first_duplicate self.now.events ≡ None }
    {
        let params = self.params.try_clone(alloc)?;
        let mut events = Events::new(alloc);
        for event in self.events.as_slice() {
            events.push(event.clone()?)?;
        }
        Ok(Profile {
            format: Format::Two,
            job: self.kind.number(),
            seed,
            cycle_time: self.cycle_time,
            params,
            events,
        })
    }

    /// The job.
    pub fn kind(&self) -> JobKind
        ensures { result ≡ self.now.kind }
    {
        self.kind
    }

    /// The time from one cycle to the next, in nanoseconds.
    pub fn cycle_time(&self) -> u64
        ensures value { result ≡ self.now.cycle_time }
        ensures range { IsCycleTime result }
    {
        self.cycle_time
    }

    /// The parameters of the job.
    pub fn params(&self) -> &Params
        ensures { result.now ≡ self.now.params }
    {
        &self.params
    }

    /// The events.
    pub fn events(&self) -> &Events
        ensures value { result.now ≡ self.now.events }
        ensures range { All IsEvent result.now }
        ensures distinct { first_duplicate result.now ≡ None }
    {
        &self.events
    }

    /// The number of workers.
    pub fn workers(&self) -> u32
        ensures value { result ≡ self.now.workers }
        ensures range { IsWorkers result }
    {
        self.workers
    }

    /// The name of the hardware platform. None exactly if the manifest has no such key.
    pub fn platform(&self) -> Option<&PlatformName>
        ensures { option_map (λ p. p.now) result ≡ self.now.platform }
    {
        self.platform.as_ref()
    }

    /// The needs of the initialisation. None exactly if the manifest has no such key.
    pub fn init_needs(&self) -> Option<&Needs>
        ensures value { option_map (λ n. n.now) result ≡ self.now.init_needs }
        ensures range { IfSome result (λ n. IsNeeds n.now) }
    {
        self.init_needs.as_ref()
    }

    /// The needs of a run. None exactly if the manifest has no such key.
    pub fn run_needs(&self) -> Option<&Needs>
        ensures value { option_map (λ n. n.now) result ≡ self.now.run_needs }
        ensures range { IfSome result (λ n. IsNeeds n.now) }
    {
        self.run_needs.as_ref()
    }
}
