//! A list of probes: runs are shown to all of them, and their reports are collected.
ghost use Rattle.std.specs.Prelude.{◌≡◌, ◌≤◌, ◌+◌, ◌*◌, List, [], ◌∷◌, ◌++◌, map, length, OnOk};
ghost use Rattle.std.specs.Prelude.{OnErr, IfOk, None};
ghost use Rattle.std.specs.Vec.{vec_len};
ghost use Rattle.det_values.specs.declared.frames.RunFrame.{RunFrame};
ghost use Rattle.probes.specs.Reports.{reports, Sees, leaves};
ghost use Rattle.probes.specs.Shows.{Shows, ShowsPartly};

use crate::probe::{Probe, ProbeStep};
use det_values::{Bytes, RunFrame};
use std::alloc::{AllocError, Global};

fn see_one(probe: &mut Box<dyn Probe>, run: &RunFrame) -> ProbeStep
    ensures { Sees result (life probe.old) (life probe.new) run.now }
{
    probe.see(run)
}

fn report_one(alloc: Global, probe: &Box<dyn Probe>) -> Result<Bytes, AllocError>
    ensures bytes { IfOk result (λ bytes. bytes ≡ (life probe.now).report_after []) }
    ensures short { IfOk result (λ bytes. length bytes ≤ 256) }
    ensures stays { leaves (life probe.now) [] ≡ None }
{
    probe.report(alloc)
}

/// Shows a run to each probe, in order. The report of a probe that leaves is appended to `left`,
/// and the other probes keep their order. After an error only a part of the probes has seen the
/// run.
pub(crate) fn show_to_probes(
    alloc: Global,
    probes: &mut Vec<Box<dyn Probe>>,
    left: &mut Bytes,
    run: &RunFrame,
) -> Result<(), AllocError>
    requires { length left.old + 256 * vec_len probes.old ≤ 1048576 }
    ensures shown { OnOk result (Shows
        (record { seeing = map (λ b. life b) probes.old.items; left = left.old })
        (record { seeing = map (λ b. life b) probes.new.items; left = left.new })
        (run.now ∷ [])) }
    ensures partly { OnErr result (ShowsPartly
        (record { seeing = map (λ b. life b) probes.old.items; left = left.old })
        (record { seeing = map (λ b. life b) probes.new.items; left = left.new })
        run.now) }
    ensures room { length left.new + 256 * vec_len probes.new
        ≤ length left.old + 256 * vec_len probes.old }
{
    let mut at = 0;
    while at < probes.len() {
        match see_one(&mut probes[at], run) {
            ProbeStep::Stay => at += 1,
            ProbeStep::Leave => {
                let probe = probes.remove(at);
                let report = report_one(alloc, &probe)?;
                left.extend_from_slice(report.as_slice())?;
            }
        }
    }
    Ok(())
}

/// Appends the reports of all probes, in order. After an error only some were appended.
fn report_all(
    alloc: Global,
    probes: &Vec<Box<dyn Probe>>,
    left: &mut Bytes,
) -> Result<(), AllocError>
    requires { length left.old + 256 * vec_len probes.now ≤ 1048576 }
    ensures left { OnOk result
        (left.new ≡ left.old ++ reports (map (λ b. life b) probes.now.items) []) }
    ensures room { length left.new ≤ length left.old + 256 * vec_len probes.now }
{
    'probes: for probe in probes.iter() {
        let report = report_one(alloc, probe)?;
        left.extend_from_slice(report.as_slice())?;
    }
    Ok(())
}

/// Appends the reports of the remaining probes to `left`, in order, and drops the probes. After an
/// error only some reports were appended.
pub(crate) fn finish_all(
    alloc: Global,
    probes: &mut Vec<Box<dyn Probe>>,
    left: &mut Bytes,
) -> Result<(), AllocError>
    requires { length left.old + 256 * vec_len probes.old ≤ 1048576 }
    ensures left { OnOk result
        (left.new ≡ left.old ++ reports (map (λ b. life b) probes.old.items) []) }
    ensures none { probes.new.items ≡ [] }
    ensures room { length left.new ≤ 1048576 }
{
    let new_reports = report_all(alloc, probes, left);
    probes.clear();
    new_reports
}
