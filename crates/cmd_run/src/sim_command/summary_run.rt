//! Runs a shipped job over a text in memory, and sums up the record without keeping it.
ghost use Rattle.std.specs.Prelude.{◌≡◌, [], length, Ok, OnOk, IfOk, IfErr};
ghost use Rattle.stimulus.specs.Reading.{Terminated, ending};
ghost use Rattle.probes.specs.Reports.{reported};
ghost use Rattle.probes.specs.Shows.{seen};
ghost use Rattle.jobs.specs.Kinds.{by_kind};
ghost use Rattle.shipped_crews.specs.Runs.{IsGoodRun};
ghost use Rattle.cmd_run.specs.sim_command.Sim.{runs_over, summary_over};

use crate::stimulus_visit::StimulusIn;
use det_io::{Failure, Stopped, TextShelf};
use det_values::Bytes;
use probes::{Audience, Probe};
use record_reader::DigestSink;
use record_text::Summary;
use recorder::run_writer::Counts;
use shipped_crews::{ShippedRun, Workers, with_crew};
use std::alloc::AllocError;
use std::thread::Threads;
use stimulus::StimulusFault;

/// The counts of a run that only `AllocError` can end early.
fn sim_counts(run: Result<Counts, Stopped<StimulusFault>>) -> Result<Counts, AllocError>
    requires { IfErr run (λ why. why ≡ Stopped.Failed Failure.OutOfMemory) }
    ensures { IfOk result (λ counts. run ≡ Ok counts) }
{
    match run {
        Ok(counts) => Ok(counts),
        Err(_) => Err(AllocError),
    }
}

/// Runs a shipped job over a whole stimulus before an audience. Returns the summary of the record,
/// which isn't kept.
pub(crate) fn summarize_run<R>(
    workers: &Workers<'_, R>,
    run: ShippedRun,
    number: u64,
    text: Bytes,
    audience: &mut Audience,
) -> Result<Summary, AllocError>
where
    R: Threads,
    requires good { IsGoodRun run.kind run.profile }
    requires whole { ending (length run.profile.events) text ≡ Terminated }
    ensures summary { IfOk result (λ summary.
        summary ≡ by_kind (λ s g e l p m. summary_over m run.profile text number) run.kind) }
    ensures reports { OnOk result (reported
        (seen (λ b. life (b.vtable, b.value)) audience.new) []
        ≡ reported (seen (λ b. life (b.vtable, b.value)) audience.old)
        (by_kind (λ s g e l p m. runs_over m run.profile text) run.kind)) }
{
    let mut shelf = TextShelf::new(text);
    let mut sink = DigestSink::new();
    let events = run.profile.events.len() as u16;
    let stimulus = StimulusIn { slot: 0, events };
    let recorded = with_crew(workers, run, stimulus, &mut shelf, &mut sink, audience)?;
    let counts = sim_counts(recorded)?;
    Ok(Summary {
        number,
        cycles: counts.cycles,
        refused: counts.refused,
        bytes: counts.bytes,
        digest: sink.finish(),
    })
}
