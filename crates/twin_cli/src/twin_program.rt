//! `twin_top`, which runs the command that the arguments name.
ghost use Rattle.std.specs.Prelude.{◌≡◌, ◌≢◌, true, Err};
ghost use Rattle.det_io.specs.Traffic.{sink_run};
ghost use Rattle.cli_words.specs.Names.{texts};
ghost use Rattle.cli_answers.specs.Outcome.{MeetsBy};
ghost use Rattle.twin_cli.specs.Answers.{failed, has_text};
ghost use Rattle.twin_cli.specs.FoundVerdict.{found_outcome};
ghost use Rattle.twin_cli.specs.Outcome.{answer_to, outcome_with};
ghost use Rattle.twin_cli.specs.Promise.{IsPromised, Runs};
ghost use Rattle.twin_cli.specs.Words.{command_of};

use crate::find_verdict::find_verdict;
use crate::twin_answer::TwinAnswer;
use crate::twin_command::TwinCommand;
use crate::twin_usage::text_of;
use cli_answers::{Status, write_line};
use copies::Verdict;
use copies::verdict_text::verdict_line;
use det_io::{Shelf, Sink, write_all};
use std::alloc::Global;
use std::sync::Wait;
use std::thread::Threads;

/// Runs the command that the arguments after the program's name give.
///
/// The stimulus is kept in memory as a whole. Each copy runs on a thread of its own, with one
/// worker and the seed 0. Copies wait for one another, so no contract promises that this call
/// returns.
pub fn twin_top<S: Shelf, K: Sink, E: Sink, R: Threads + Wait + Sync>(
    rt: &R,
    alloc: Global,
    words: &[String],
    shelf: &mut S,
    out: &mut K,
    err: &mut E,
) -> Status
    ensures { IsPromised (texts words.now) (S.sees shelf.old) (S.sees shelf.new)
        (sink_run K.took K.faults out.old out.new)
        (sink_run E.took E.faults err.old err.new) result }
{
    let answer = run(rt, alloc, words, shelf, out);
    write_line(&answer.line(), err);
    answer.status()
}

fn run<S: Shelf, K: Sink, R: Threads + Wait + Sync>(
    rt: &R,
    alloc: Global,
    words: &[String],
    shelf: &mut S,
    out: &mut K,
) -> TwinAnswer
    ensures { Runs (command_of (texts words.now)) (S.sees shelf.old) (S.sees shelf.new)
        (sink_run K.took K.faults out.old out.new) result }
{
    match TwinCommand::from_words(words) {
        Some(TwinCommand::Text(word)) => print(text_of(word).as_bytes(), TwinAnswer::Done, out),
        Some(TwinCommand::Run(twins)) => {
            let found = find_verdict(rt, alloc, &twins, shelf);
            print_verdict(alloc, found, out)
        }
        None => TwinAnswer::BadWords,
    }
}

/// Prints the line of a verdict, or returns the answer if there is no verdict.
fn print_verdict<K: Sink>(
    alloc: Global,
    found: Result<Verdict, TwinAnswer>,
    out: &mut K,
) -> TwinAnswer
    requires writes_nothing { found ≢ Err TwinAnswer.WriteFault }
    requires words { found ≢ Err TwinAnswer.BadWords }
    ensures meets { MeetsBy failed (found_outcome found) (Unit {0})
        (found ≡ Err TwinAnswer.ReadFault) (sink_run K.took K.faults out.old out.new) result }
    ensures words { result ≢ TwinAnswer.BadWords }
{
    let verdict = match found {
        Ok(verdict) => verdict,
        Err(answer) => return answer,
    };
    let Ok(line) = verdict_line(alloc, &verdict) else {
        return TwinAnswer::OutOfMemory;
    };
    print(&line, answer_to(verdict), out)
}

fn answer_to(verdict: Verdict) -> TwinAnswer
    ensures is { result ≡ answer_to verdict }
    ensures text { has_text result ≡ true }
{
    match verdict {
        Verdict::Agree { .. } => TwinAnswer::Done,
        Verdict::Differ { .. } => TwinAnswer::Differs,
    }
}

/// Writes a text. The answer is this one if all of it was written.
fn print<K: Sink>(text: &[u8], answer: TwinAnswer, out: &mut K) -> TwinAnswer
    requires { has_text answer ≡ true }
    ensures meets { MeetsBy failed (outcome_with answer text.now) (Unit {0}) ⊥
        (sink_run K.took K.faults out.old out.new) result }
    ensures words { result ≢ TwinAnswer.BadWords }
{
    match write_all(out, text) {
        Ok(()) => answer,
        Err(_) => TwinAnswer::WriteFault,
    }
}
