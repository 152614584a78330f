//! A manifest up to the name of its job, for applications that name their jobs themselves.
ghost use Rattle.std.specs.Prelude.{◌≡◌};

use crate::{Manifest, ManifestFault, Needs, PlatformName};
use det_values::{Events, JobKind, Params};
use std::marker::Model;

/// A manifest without a fault, but perhaps with a name that no shipped job has. Its events have
/// different names.
#[derive(Drop)]
pub struct NamedManifest {
    pub(crate) job: String,
    pub(crate) cycle_time: u64,
    pub(crate) workers: u32,
    pub(crate) params: Params,
    pub(crate) events: Events,
    pub(crate) platform: Option<PlatformName>,
    pub(crate) init_needs: Option<Needs>,
    pub(crate) run_needs: Option<Needs>,
}

impl Model for NamedManifest {
    ghost use Rattle.std.specs.Prelude.{◌≡◌, None};
    ghost use Rattle.std.specs.List.{All};
    ghost use Rattle.std.specs.Option.{ForSome};
    ghost use Rattle.det_values.specs.Limits.{IsCycleTime};
    ghost use Rattle.manifest.specs.Values.{NamedValue};
    ghost use Rattle.manifest.specs.Limits.{IsWorkers, IsEvent, IsNeeds};
    ghost use Rattle.manifest.specs.Faults.{first_duplicate};

    ghost Value = { NamedValue };

    ghost view = { λ m. record {
      job = m.job.bytes.items;
      cycle_time = m.cycle_time;
      workers = m.workers;
      params = m.params;
      events = m.events;
      platform = m.platform;
      init_needs = m.init_needs;
      run_needs = m.run_needs;
    } };

    ghost invariant = { λ m. IsCycleTime m.cycle_time × IsWorkers m.workers
        × All IsEvent m.events × (first_duplicate m.events ≡ None)
        × ForSome m.init_needs IsNeeds × ForSome m.run_needs IsNeeds };
}

impl NamedManifest {
    ghost use Rattle.std.specs.Prelude.{Ok, option_map};
    ghost use Rattle.manifest.specs.Meaning.{by_job};

    /// The manifest for the job of its name.
    pub(crate) fn with_kind(self) -> Result<Manifest, ManifestFault>
        ensures { by_job (Ok self) ≡ result }
    {
        match JobKind::from_name(self.job.as_str()) {
            None => Err(ManifestFault::UnknownJob),
            Some(kind) => Ok(Manifest {
                kind,
                cycle_time: self.cycle_time,
                workers: self.workers,
                params: self.params,
                events: self.events,
                platform: self.platform,
                init_needs: self.init_needs,
                run_needs: self.run_needs,
            }),
        }
    }

    /// The name of the job.
    pub fn job(&self) -> &[u8]
        ensures { result.now ≡ self.now.job }
    {
        self.job.as_bytes()
    }

    /// The time from one cycle to the next, in nanoseconds.
    pub fn cycle_time(&self) -> u64
        ensures { result ≡ self.now.cycle_time }
    {
        self.cycle_time
    }

    /// The number of workers.
    pub fn workers(&self) -> u32
        ensures { result ≡ self.now.workers }
    {
        self.workers
    }

    /// The parameters of the job.
    pub fn params(&self) -> &Params
        ensures { result.now ≡ self.now.params }
    {
        &self.params
    }

    /// The events.
    pub fn events(&self) -> &Events
        ensures { result.now ≡ self.now.events }
    {
        &self.events
    }

    /// The name of the hardware platform. None exactly if the manifest has no such key.
    pub fn platform(&self) -> Option<&PlatformName>
        ensures { option_map (λ p. p.now) result ≡ self.now.platform }
    {
        self.platform.as_ref()
    }

    /// The needs of the initialisation. None exactly if the manifest has no such key.
    pub fn init_needs(&self) -> Option<&Needs>
        ensures { option_map (λ n. n.now) result ≡ self.now.init_needs }
    {
        self.init_needs.as_ref()
    }

    /// The needs of a run. None exactly if the manifest has no such key.
    pub fn run_needs(&self) -> Option<&Needs>
        ensures { option_map (λ n. n.now) result ≡ self.now.run_needs }
    {
        self.run_needs.as_ref()
    }
}
