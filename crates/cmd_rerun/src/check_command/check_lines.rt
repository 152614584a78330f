//! The output of `check`: the line of a verdict, then the reports.
ghost use Rattle.std.specs.Prelude.{◌≡◌, ◌++◌, true, Ok, IfOk, OnOk};
ghost use Rattle.det_io.specs.Traffic.{sink_run};
ghost use Rattle.cli_answers.specs.Ends.{can_end, compares_runs};
ghost use Rattle.cli_answers.specs.Outcome.{Meets};
ghost use Rattle.copies.specs.verdict_text.Verdicts.{check_line};
ghost use Rattle.cmd_rerun.specs.check_command.Check.{answer_to, outcome_by};

use cli_answers::Answer;
use copies::verdict_text::put_difference_place;
use copies::{CheckVerdict, Difference};
use det_io::{Sink, write_all};
use record_text::{put_number_line, put_str};
use std::alloc::{AllocError, Global};

/// The answer of the command for a verdict.
fn answer_to(verdict: CheckVerdict) -> Answer
    ensures is { result ≡ answer_to verdict }
    ensures ends { can_end compares_runs result ≡ true }
{
    match verdict {
        CheckVerdict::Genuine { .. } => Answer::Done,
        CheckVerdict::Departs(_) => Answer::Differs,
    }
}

fn put_departs_line(out: &mut Vec<u8>, at: Difference) -> Result<(), AllocError>
    ensures { OnOk result (out.new.items
        ≡ out.old.items ++ check_line (CheckVerdict.Departs at)) }
{
    put_str(out, "departs ")?;
    put_difference_place(out, at)?;
    put_str(out, "\n")?;
    Ok(())
}

fn put_check_line(out: &mut Vec<u8>, verdict: CheckVerdict) -> Result<(), AllocError>
    ensures { OnOk result (out.new.items ≡ out.old.items ++ check_line verdict) }
{
    match verdict {
        CheckVerdict::Genuine { cycles } => {
            put_number_line(out, "genuine", cycles as u64)?;
            Ok(())
        }
        CheckVerdict::Departs(at) => put_departs_line(out, at),
    }
}

/// The line of a verdict, then the reports.
fn lines_of(alloc: Global, verdict: CheckVerdict, reports: &[u8]) -> Result<Vec<u8>, AllocError>
    ensures { IfOk result (λ lines. lines.items ≡ check_line verdict ++ reports.now) }
{
    let mut lines = Vec::new(alloc);
    put_check_line(&mut lines, verdict)?;
    lines.extend_from_slice(reports)?;
    Ok(lines)
}

/// Prints the line of a verdict, then the reports.
pub(crate) fn print_verdict<K: Sink>(
    alloc: Global,
    verdict: CheckVerdict,
    reports: &[u8],
    out: &mut K,
) -> Answer
    ensures meets { Meets (outcome_by (Ok verdict) reports.now) (Unit {0}) ⊥
        (sink_run K.took K.faults out.old out.new) result }
    ensures ends { can_end compares_runs result ≡ true }
{
    let Ok(lines) = lines_of(alloc, verdict, reports) else {
        return Answer::OutOfMemory;
    };
    match write_all(out, &lines) {
        Ok(()) => answer_to(verdict),
        Err(_) => Answer::WriteFault,
    }
}
