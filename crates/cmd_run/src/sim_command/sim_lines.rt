//! The command `sim`: makes the stimulus and the profile, and prints the summary.
ghost use Rattle.std.specs.Prelude.{◌≡◌, ◌≢◌, [], ◌++◌, true, OnOk, IfOk};
ghost use Rattle.det_io.specs.Traffic.{sink_run};
ghost use Rattle.manifest.specs.Limits.{IsWorkers};
ghost use Rattle.probes.specs.Reports.{reported};
ghost use Rattle.probes.specs.Shows.{seen};
ghost use Rattle.record_text.specs.Summaries.{summary_lines};
ghost use Rattle.cli_answers.specs.Ends.{can_end, reads_nothing};
ghost use Rattle.cli_answers.specs.Outcome.{Meets};
ghost use Rattle.cmd_run.specs.sim_command.Sim.{sim_text, sim_outcome, sim_runs};

use crate::sim_command::profile::sim_profile;
use crate::sim_command::summary_run::summarize_run;
use cli_answers::Answer;
use det_io::{Sink, write_all};
use det_values::JobKind;
use probes::{Audience, Probe};
use record_text::{Summary, put_summary_lines};
use shipped_crews::{ShippedRun, Workers};
use std::alloc::{AllocError, Global};
use std::thread::Threads;
use stimulus::generate_stimulus;

/// The lines of a summary, then the reports.
fn sim_output_lines(alloc: Global, summary: &Summary, reports: &[u8]) -> Result<Vec<u8>, AllocError>
    ensures { IfOk result (λ lines. lines.items
        ≡ summary_lines summary.now ++ reports.now) }
{
    let mut lines = Vec::new(alloc);
    put_summary_lines(&mut lines, summary)?;
    lines.extend_from_slice(reports)?;
    Ok(lines)
}

/// The output of `sim`. It is made whole before a byte is written. The record goes only into a
/// digest.
fn sim_text<R>(
    workers: &Workers<'_, R>,
    number: u64,
    audience: &mut Audience,
) -> Result<Vec<u8>, AllocError>
where
    R: Threads,
    requires { IsWorkers workers.now.count }
    ensures text { IfOk result (λ text. text.items
        ≡ sim_text (seen (λ b. life (b.vtable, b.value)) audience.old) number) }
    ensures saw { OnOk result (reported
        (seen (λ b. life (b.vtable, b.value)) audience.new) []
        ≡ reported (seen (λ b. life (b.vtable, b.value)) audience.old) (sim_runs number)) }
    ensures gone { OnOk result
        ((seen (λ b. life (b.vtable, b.value)) audience.new).seeing ≡ []) }
{
    let alloc = workers.alloc;
    let profile = sim_profile(alloc, number)?;
    let stimulus = generate_stimulus(alloc, number)?;
    let kind = JobKind::Cloud;
    let run = ShippedRun { kind, profile };
    let summary = summarize_run(workers, run, number, stimulus, audience)?;
    audience.finish(alloc)?;
    sim_output_lines(alloc, &summary, audience.reports())
}

/// Prints a summary of the built-in cloud's run over the stimulus that is generated from a number.
/// The cycles are shown to the audience, and its reports are printed after the summary.
pub fn sim<K, R>(
    workers: &Workers<'_, R>,
    number: u64,
    out: &mut K,
    audience: &mut Audience,
) -> Answer
where
    K: Sink,
    R: Threads,
    // True of every `Workers`. Without a `requires`, rattle refuses a function that passes on an
    // audience.
    requires { IsWorkers workers.now.count }
    ensures meets { Meets
        (sim_outcome
        (seen (λ b. life (b.vtable, b.value)) audience.old) number)
        (Unit {0}) ⊥
        (sink_run K.took K.faults out.old out.new) result }
    ensures ends { can_end reads_nothing result ≡ true }
    ensures saw { result ≢ Answer.OutOfMemory → reported
        (seen (λ b. life (b.vtable, b.value)) audience.new) []
        ≡ reported (seen (λ b. life (b.vtable, b.value)) audience.old) (sim_runs number) }
    ensures gone { result ≡ Answer.Done
        → (seen (λ b. life (b.vtable, b.value)) audience.new).seeing ≡ [] }
{
    let Ok(text) = sim_text(workers, number, audience) else {
        return Answer::OutOfMemory;
    };
    match write_all(out, &text) {
        Ok(()) => Answer::Done,
        Err(_) => Answer::WriteFault,
    }
}
