//! Takes one row of each copy and compares them, one round after another.
ghost use Rattle.std.specs.Prelude.{◌≡◌, ◌≤◌, ◌<◌, ◌+◌, length, IfNone, Some};
ghost use Rattle.std.specs.Option.{option_map};
ghost use Rattle.copies.specs.declared.verdict.Verdict.TheVariants.{Differ};
ghost use Rattle.copies.specs.Verdict.{row_difference};
ghost use Rattle.twins.specs.Pairs.{EachPair};
ghost use Rattle.twins.specs.TwinVerdict.{as_read, row_verdict};
ghost use Rattle.twins.specs.TakenRows.{AreIntakes, HaveTaken, TookOne, taken_by, Judged};
ghost use Rattle.twins.specs.TakenRows.{MayTake, Takes};

use crate::taker::{Intake, Taker};
use copies::{Verdict, first_frame_difference};
use frame_queue::{FrameQueue, Row};
use std::sync::Wait;

impl Taker {
    /// Takes at most `more` rows of each copy, while all of them send. It ends after the first row
    /// that differs.
    pub(crate) fn take_rows<R: Wait>(
        &mut self,
        rt: &R,
        queues: &[FrameQueue],
        more: u32,
    ) -> Option<Verdict>
        requires { MayTake queues.now self.old more }
        ensures { Takes queues.now self.old self.new more result }
    {
        'rounds: for _ in 0..more {
            if !wait_for_rows(rt, queues) {
                break;
            }
            if let Some(verdict) = self.take_next(rt, queues) {
                return Some(verdict);
            }
        }
        None
    }

    /// Takes one more row of each copy.
    fn take_next<R: Wait>(&mut self, rt: &R, queues: &[FrameQueue]) -> Option<Verdict>
        requires { MayTake queues.now self.old 1 }
        ensures judged { Judged result queues.now self.new }
        ensures rows { self.new.rows ≡ self.old.rows + 1 }
    {
        let number = self.rows;
        self.rows += 1;
        take_round(rt, queues, self.intakes.as_mut_slice(), number)
    }
}

/// Waits for a row of each copy, and returns whether there is one of each.
fn wait_for_rows<R: Wait>(rt: &R, queues: &[FrameQueue]) -> bool {
    'queues: for queue in queues {
        if !queue.pace().wait_for_row(rt) {
            return false;
        }
    }
    true
}

/// Takes the row of this number of each copy, and compares it with that of copy 0.
fn take_round<R: Wait>(
    rt: &R,
    queues: &[FrameQueue],
    intakes: &mut [Intake],
    number: u32,
) -> Option<Verdict>
    requires some { 0 < length queues.now }
    requires few { length queues.now ≤ 8 }
    requires intakes { AreIntakes queues.now intakes.old }
    requires room { number < 4294967295 }
    requires taken { HaveTaken number intakes.old }
    ensures intakes { AreIntakes queues.now intakes.new }
    ensures took { EachPair TookOne intakes.old intakes.new }
    ensures found { result ≡ row_verdict number (taken_by intakes.new) }
{
    let ours = intakes[0].take(rt, &queues[0]);
    let mut found = None;
    'others: for copy in 1..intakes.len() {
        let row = intakes[copy].take(rt, &queues[copy]);
        found = found.or(difference_verdict(copy as u32, number, &ours, row));
    }
    found
}

/// The verdict that this copy differs, if its row isn't that of copy 0.
fn difference_verdict(copy: u32, number: u32, ours: &Row, row: Row) -> Option<Verdict>
    ensures { result ≡ option_map (Differ copy)
        (row_difference (number + 1) (as_read (Some ours.now)) (as_read (Some row))) }
{
    match first_frame_difference(number, &ours.frame, &row.frame) {
        Some(at) => Some(Verdict::Differ { copy, at }),
        None => None,
    }
}
