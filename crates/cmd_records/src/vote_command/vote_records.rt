//! The commands `vote` and `vote --dissent` over names, around `voter::vote` over slots.
ghost use Rattle.std.specs.Prelude.{◌≡◌, ◌≤◌, map, length, true, Ok, []};
ghost use Rattle.det_io.specs.Shelf.{AsksPrefix};
ghost use Rattle.det_io.specs.Sink.{Grew};
ghost use Rattle.det_io.specs.Traffic.{sink_run};
ghost use Rattle.cli_answers.specs.Ends.{can_end};
ghost use Rattle.cli_answers.specs.Outcome.{Meets, KnowsBytes};
ghost use Rattle.cli_answers.specs.Slots.{KeepsSlots};
ghost use Rattle.cmd_records.specs.command_ends.Meeting.{MeetsCopies};
ghost use Rattle.cmd_records.specs.command_ends.Results.{answer_by};
ghost use Rattle.cmd_records.specs.vote_command.Vote.{dissent_text, vote_work};
ghost use Rattle.cmd_records.specs.vote_command.Vote.{vote_outcome, dissent_outcome, VoteBreaksOff};
ghost use Rattle.cmd_records.specs.vote_command.Vote.{split_answer};

use crate::open_names::open_all;
use crate::vote_command::text::dissent_text;
use crate::voter::{NoMajority, Vote};
use cli_answers::Answer;
use det_io::{Discard, Shelf, Sink, Stopped, write_all};
use std::alloc::Global;

/// The answer by the result of a vote.
fn vote_answer(voted: Result<Vote, Stopped<NoMajority>>) -> Answer
    ensures is { result ≡ answer_by split_answer voted }
    ensures ends { can_end vote_work result ≡ true }
{
    match voted {
        Ok(_) => Answer::Done,
        Err(Stopped::Refused(split)) => Answer::NoMajority { row: split.row },
        Err(Stopped::Failed(failure)) => Answer::from(failure),
    }
}

/// Writes the record of the majority of the records under these names, row by row as they are read.
///
/// All names are opened in their order, and before the first record is read (which no clause says).
/// If more than half of the records aren't one whole record, the rows that more than half have in
/// common are written. If a read fails, all rows that were voted are written.
pub fn vote<S: Shelf, K: Sink>(
    alloc: Global,
    recorded: &[&str],
    shelf: &mut S,
    out: &mut K,
) -> Answer
    requires some { 3 ≤ length recorded.now }
    requires few { length recorded.now ≤ 7 }
    ensures meets { MeetsCopies vote_outcome (S.sees shelf.old) (S.sees shelf.new)
        (map (λ name. name.now) recorded.now) (sink_run K.took K.faults out.old out.new) result }
    ensures ends { can_end vote_work result ≡ true }
    ensures broken { result ≡ Answer.ReadFault
        → KnowsBytes (S.sees shelf.old) (map (λ name. name.now) recorded.now)
        → VoteBreaksOff (S.sees shelf.old) (S.sees shelf.new)
        (map (λ name. name.now) recorded.now) (sink_run K.took K.faults out.old out.new) }
    ensures asked { AsksPrefix (S.sees shelf.old) (S.sees shelf.new)
        (map (λ name. name.now) recorded.now) }
    ensures earlier { KeepsSlots (S.sees shelf.old) (S.sees shelf.new) }
{
    let slots = match open_all(alloc, recorded, shelf) {
        Ok(slots) => slots,
        Err(failure) => return Answer::from(failure),
    };
    vote_answer(crate::voter::vote(alloc, shelf, &slots, out))
}

/// Prints how many cycles the majority's record has, and which copies dissent from it.
fn print_dissent<K: Sink>(alloc: Global, vote: &Vote, out: &mut K) -> Answer
    ensures meets { Meets (record {
      answer = Answer.Done;
      bytes = dissent_text vote.now.cycles vote.now.dissent;
    }) (Unit {0}) ⊥
        (sink_run K.took K.faults out.old out.new) result }
    ensures ends { can_end vote_work result ≡ true }
{
    let Ok(text) = dissent_text(alloc, vote) else {
        return Answer::OutOfMemory;
    };
    match write_all(out, &text) {
        Ok(()) => Answer::Done,
        Err(_) => Answer::WriteFault,
    }
}

/// Prints how many cycles the majority's record has, in place of the record. For each copy that
/// isn't that record, it prints the copy's number and the first row in which it differs. If there
/// is no majority, or a read fails, nothing is printed.
pub fn vote_dissent<S: Shelf, K: Sink>(
    alloc: Global,
    recorded: &[&str],
    shelf: &mut S,
    out: &mut K,
) -> Answer
    requires some { 3 ≤ length recorded.now }
    requires few { length recorded.now ≤ 7 }
    ensures meets { MeetsCopies dissent_outcome (S.sees shelf.old) (S.sees shelf.new)
        (map (λ name. name.now) recorded.now) (sink_run K.took K.faults out.old out.new) result }
    ensures ends { can_end vote_work result ≡ true }
    ensures broken { result ≡ Answer.ReadFault → Grew (K.took out.old) (K.took out.new) [] }
    ensures asked { AsksPrefix (S.sees shelf.old) (S.sees shelf.new)
        (map (λ name. name.now) recorded.now) }
    ensures earlier { KeepsSlots (S.sees shelf.old) (S.sees shelf.new) }
{
    let slots = match open_all(alloc, recorded, shelf) {
        Ok(slots) => slots,
        Err(failure) => return Answer::from(failure),
    };
    match crate::voter::vote(alloc, shelf, &slots, &mut Discard) {
        Ok(vote) => print_dissent(alloc, &vote, out),
        Err(stop) => vote_answer(Err(stop)),
    }
}
