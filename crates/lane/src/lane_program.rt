//! `lane_top`, which runs the command that the arguments name.
ghost use Rattle.std.specs.Prelude.{◌≡◌, ◌≢◌, true, Err};
ghost use Rattle.det_io.specs.Traffic.{sink_run};
ghost use Rattle.cli_words.specs.Names.{texts};
ghost use Rattle.cli_answers.specs.Outcome.{MeetsBy};
ghost use Rattle.lane.specs.Answers.{failed, has_text};
ghost use Rattle.lane.specs.Outcome.{answer_to, outcome_with};
ghost use Rattle.lane.specs.Promise.{IsPromised, Runs};
ghost use Rattle.lane.specs.Watched.{found_outcome, Watched};
ghost use Rattle.lane.specs.Words.{command_of, lane_value};

use crate::child_processes::{ChildShelf, Spawner};
use crate::lane::Lane;
use crate::lane_answer::LaneAnswer;
use crate::lane_command::LaneCommand;
use crate::lane_status::LaneStatus;
use crate::lane_usage::text_of;
use crate::started_children::{finish_all, start_all};
use crate::verdict_or_answer::verdict_or_answer;
use cli_answers::write_line;
use copies::verdict_text::verdict_line;
use copies::{Verdict, compare};
use det_io::{Sink, write_all};
use std::alloc::Global;

/// The slots of the children: slot k is child k.
const SLOTS: [u32; 8] = [0, 1, 2, 3, 4, 5, 6, 7];

/// Runs the command that the arguments after the program's name give.
///
/// All children are started before one is read, and all are finished before the line is written. A
/// spawner stops a child whose output isn't read to its end. If a child can't be started, or memory
/// runs out for its arguments, those before it are finished.
///
/// A failed start or read is a spawn fault. A failed end is one only if that exit status counts. If
/// the copies agree, every child's counts, even if another child ended with a status other than 0.
/// If a record is truncated, only that copy's counts.
///
/// `read` and `finish` of a spawner of processes can wait for ever, so no contract promises that
/// this call returns.
pub fn lane_top<P: Spawner, K: Sink, E: Sink>(
    alloc: Global,
    words: &[String],
    children: &mut ChildShelf<P>,
    out: &mut K,
    err: &mut E,
) -> LaneStatus
    requires { (P.sees children.old.spawner).children ≡ 0 }
    ensures { IsPromised (texts words.now) (P.sees children.old.spawner)
        (P.sees children.new.spawner) (sink_run K.took K.faults out.old out.new)
        (sink_run E.took E.faults err.old err.new) result }
{
    let answer = run_command(alloc, words, children, out);
    write_line(&answer.line(), err);
    answer.status()
}

fn run_command<P: Spawner, K: Sink>(
    alloc: Global,
    words: &[String],
    children: &mut ChildShelf<P>,
    out: &mut K,
) -> LaneAnswer
    requires { (P.sees children.old.spawner).children ≡ 0 }
    ensures { Runs (command_of (texts words.now)) (P.sees children.old.spawner)
        (P.sees children.new.spawner) (sink_run K.took K.faults out.old out.new) result }
{
    match LaneCommand::from_words(words) {
        Some(LaneCommand::Text(word)) => print_lane_text(
            text_of(word).as_bytes(),
            LaneAnswer::Done,
            out,
        ),
        Some(LaneCommand::Run(lane)) => {
            let found = compare_children(alloc, &lane, children);
            print_lane_verdict(alloc, found, out)
        }
        None => LaneAnswer::BadWords,
    }
}

/// Starts the children, compares their outputs and finishes them. No child is left running.
fn compare_children<P: Spawner>(
    alloc: Global,
    lane: &Lane<'_>,
    children: &mut ChildShelf<P>,
) -> Result<Verdict, LaneAnswer>
    requires { (P.sees children.old.spawner).children ≡ 0 }
    ensures { Watched (P.sees children.old.spawner) (P.sees children.new.spawner)
        (lane_value lane.now) result }
{
    let started = start_all(alloc, lane, &mut children.spawner);
    if let Some(failure) = started.failure {
        finish_all(&mut children.spawner, started.count);
        return Err(LaneAnswer::from(failure));
    }
    let compared = compare(alloc, children, &SLOTS[..lane.copies as usize]);
    let statuses = finish_all(&mut children.spawner, lane.copies);
    verdict_or_answer(compared, &statuses[..lane.copies as usize])
}

/// Prints the line of a verdict, or returns the answer if there is no verdict.
fn print_lane_verdict<K: Sink>(
    alloc: Global,
    found: Result<Verdict, LaneAnswer>,
    out: &mut K,
) -> LaneAnswer
    requires writes_nothing { found ≢ Err LaneAnswer.WriteFault }
    requires words { found ≢ Err LaneAnswer.BadWords }
    ensures meets { MeetsBy failed (found_outcome found) (Unit {0})
        (found ≡ Err LaneAnswer.SpawnFault) (sink_run K.took K.faults out.old out.new) result }
    ensures words { result ≢ LaneAnswer.BadWords }
{
    let verdict = match found {
        Ok(verdict) => verdict,
        Err(answer) => return answer,
    };
    let Ok(line) = verdict_line(alloc, &verdict) else {
        return LaneAnswer::OutOfMemory;
    };
    print_lane_text(&line, answer_to(verdict), out)
}

fn answer_to(verdict: Verdict) -> LaneAnswer
    ensures is { result ≡ answer_to verdict }
    ensures text { has_text result ≡ true }
{
    match verdict {
        Verdict::Agree { .. } => LaneAnswer::Done,
        Verdict::Differ { .. } => LaneAnswer::Differs,
    }
}

/// Writes a text. The answer is this one if all of it was written.
fn print_lane_text<K: Sink>(text: &[u8], answer: LaneAnswer, out: &mut K) -> LaneAnswer
    requires { has_text answer ≡ true }
    ensures meets { MeetsBy failed (outcome_with answer text.now) (Unit {0}) ⊥
        (sink_run K.took K.faults out.old out.new) result }
    ensures words { result ≢ LaneAnswer.BadWords }
{
    match write_all(out, text) {
        Ok(()) => answer,
        Err(_) => LaneAnswer::WriteFault,
    }
}
