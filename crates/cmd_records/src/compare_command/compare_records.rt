//! The command `compare` over names, around `copies::compare` over slots.
ghost use Rattle.std.specs.Prelude.{◌≡◌, ◌≤◌, map, length, true, Ok};
ghost use Rattle.det_io.specs.Shelf.{AsksPrefix};
ghost use Rattle.det_io.specs.Traffic.{sink_run};
ghost use Rattle.cli_answers.specs.Ends.{can_end, compares_records};
ghost use Rattle.cli_answers.specs.Outcome.{Meets};
ghost use Rattle.cli_answers.specs.Slots.{KeepsSlots};
ghost use Rattle.cmd_records.specs.command_ends.Meeting.{MeetsCopies};
ghost use Rattle.cmd_records.specs.compare_command.Compare.{answer_to, compared};
ghost use Rattle.cmd_records.specs.compare_command.Compare.{compare_outcome};

use crate::open_names::open_all;
use cli_answers::Answer;
use copies::Verdict;
use copies::verdict_text::verdict_line;
use det_io::{Shelf, Sink, Stopped, write_all};
use std::alloc::Global;

/// The answer by the verdict.
fn verdict_answer(verdict: Verdict) -> Answer
    ensures is { result ≡ answer_to verdict }
    ensures ends { can_end compares_records result ≡ true }
{
    match verdict {
        Verdict::Agree { .. } => Answer::Done,
        Verdict::Differ { .. } => Answer::Differs,
    }
}

/// Prints the line of a verdict.
fn print_verdict<K: Sink>(alloc: Global, verdict: Verdict, out: &mut K) -> Answer
    ensures meets { Meets (compared (Ok verdict)) (Unit {0}) ⊥
        (sink_run K.took K.faults out.old out.new) result }
    ensures ends { can_end compares_records result ≡ true }
{
    let Ok(line) = verdict_line(alloc, &verdict) else {
        return Answer::OutOfMemory;
    };
    match write_all(out, &line) {
        Ok(()) => verdict_answer(verdict),
        Err(_) => Answer::WriteFault,
    }
}

/// Prints whether the records under these names are equal and whole, or the first place where they
/// differ.
///
/// All names are opened in their order, and before the first record is read (which no clause says).
/// If a record has a fault at that place, the answer reports the fault and nothing is printed.
pub fn compare<S: Shelf, K: Sink>(
    alloc: Global,
    recorded: &[&str],
    shelf: &mut S,
    out: &mut K,
) -> Answer
    requires some { 2 ≤ length recorded.now }
    requires few { length recorded.now ≤ 8 }
    ensures meets { MeetsCopies compare_outcome (S.sees shelf.old) (S.sees shelf.new)
        (map (λ name. name.now) recorded.now) (sink_run K.took K.faults out.old out.new) result }
    ensures ends { can_end compares_records result ≡ true }
    ensures asked { AsksPrefix (S.sees shelf.old) (S.sees shelf.new)
        (map (λ name. name.now) recorded.now) }
    ensures earlier { KeepsSlots (S.sees shelf.old) (S.sees shelf.new) }
{
    let slots = match open_all(alloc, recorded, shelf) {
        Ok(slots) => slots,
        Err(failure) => return Answer::from(failure),
    };
    match copies::compare(alloc, shelf, &slots) {
        Ok(verdict) => print_verdict(alloc, verdict, out),
        Err(Stopped::Refused(bad)) => Answer::BadRecord {
            copy: bad.copy,
            fault: bad.fault,
        },
        Err(Stopped::Failed(failure)) => Answer::from(failure),
    }
}
