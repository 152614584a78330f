//! The first keys of a manifest: the job, the cycle time and the workers.
ghost use Rattle.std.specs.Prelude.{◌≡◌, IfOk};
ghost use Rattle.det_values.specs.Limits.{IsCycleTime};
ghost use Rattle.toml.specs.View.{view};
ghost use Rattle.manifest.specs.Limits.{IsWorkers};
ghost use Rattle.manifest.specs.Faults.{first_fault};
ghost use Rattle.manifest.specs.KeyReaders.{IsJudged};
ghost use Rattle.manifest.specs.Groups.{first_keys, work_in};

use crate::typed_value::{needed_text, number};
use crate::{Key, ManifestFault};
use toml::Value;

/// The work of a client: how often its job runs, and the number of workers.
#[derive(Drop)]
pub(crate) struct Work {
    pub(crate) cycle_time: u64,
    pub(crate) workers: u32,
}

impl Work {
    /// The job must be a text. Its name is read by `job_name`.
    pub(crate) fn read(tree: &Value) -> Result<Work, ManifestFault>
        ensures judged { IsJudged result (first_fault (view tree.now) first_keys)
            (work_in (view tree.now)) }
        ensures cycle_time { IfOk result (λ work. IsCycleTime work.cycle_time) }
        ensures workers { IfOk result (λ work. IsWorkers work.workers) }
    {
        needed_text(tree.get("job"), Key::Job)?;
        let time = tree.get("cycle_time_ns");
        let cycle_time = number(time, Key::CycleTime, 1, i64::MAX as u64)?;
        let workers = number(tree.get("workers"), Key::Workers, 1, 64)?;
        Ok(Work {
            cycle_time,
            workers: workers as u32,
        })
    }
}
