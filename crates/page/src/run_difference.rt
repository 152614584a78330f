//! In which parts two copies of a cycle differ, cycle by cycle. `copies` finds only the first such
//! part of a whole record.
ghost use Rattle.std.specs.Prelude.{◌≡◌, ◌≤◌, ◌<◌, ◌-◌, ◌^◌, length};
ghost use Rattle.std.specs.Cmp.Lexicographic.{pointwise};
ghost use Rattle.det_values.specs.contracts.sample.SamplePartialEq.TheImpl as sample;
ghost use Rattle.det_values.specs.declared.frames.Outcome.{Outcome};
ghost use Rattle.det_values.specs.declared.frames.RunFrame.{RunFrame};
ghost use Rattle.page.specs.Walks.{IsRunOf, IsOutcomeOf};
ghost use Rattle.page.specs.Rows.{overlay};
ghost use Rattle.page.specs.Differences.{unless, no_marks, marks_from, with_outcomes};
ghost use Rattle.page.specs.Differences.{difference_of, differences_of};

use crate::record_walk::{LentOutcome, LentRun, RecordWalk};
use crate::row_table::put_row;
use record_view::{ElementWalk, SampleWalk, events_at, view_samples};

/// In which parts two runs of a cycle differ.
#[repr(C)]
#[derive(Drop)]
pub struct PageDifference {
    /// 1 if the times differ, else 0; and so on.
    pub time: u8,
    pub samples: u8,
    /// One finished and the other was refused, or both were refused in different ways.
    pub result: u8,
    pub output: u8,
    /// How many elements differ, in their bytes or in their draws.
    pub elements: u32,
    /// Byte k is 1 if an element differs whose number, divided by the elements of a mark, is k.
    pub marks: [u8; 64],
}

/// Which elements of two runs differ.
#[derive(Drop)]
pub(crate) struct ElementMarks {
    count: u32,
    marks: [u8; 64],
}

fn unless(same: bool) -> u8
    ensures { result ≡ unless same }
{
    if same { 0 } else { 1 }
}

fn no_marks() -> ElementMarks
    ensures { result ≡ no_marks }
{
    ElementMarks {
        count: 0,
        marks: [0; 64],
    }
}

/// Counts a pair of elements, and sets its mark, unless they are the same.
fn add_pair(same: bool, mark: usize, found: &mut ElementMarks)
    requires { found.old.count < 2 ^ 32 - 1 }
    ensures { found.new ≡ Rattle.page.specs.Differences.add_pair same mark found.old }
{
    if !same {
        found.count += 1;
        put_row(1, &mut found.marks, mark);
    }
}

/// Whether two lists of at most `most` samples are equal.
fn are_same_samples(most: u32, left: SampleWalk<'_>, right: SampleWalk<'_>) -> bool
    requires left { length left ≤ most }
    requires right { length right ≤ most }
    ensures { result ≡ pointwise sample.eq-value.it left.entry right.entry }
{
    let mut left = left;
    let mut right = right;
    'samples: for _ in 0..most {
        if left.next() != right.next() {
            return false;
        }
    }
    true
}

/// Which of at most `most` elements differ. The end of the shorter list is a difference too.
fn mark_elements(
    per_mark: u32,
    most: u32,
    left: ElementWalk<'_>,
    right: ElementWalk<'_>,
) -> ElementMarks
    requires some { 1 ≤ per_mark }
    requires left { length left ≤ most }
    requires right { length right ≤ most }
    ensures { result ≡ marks_from per_mark 0 left.entry right.entry no_marks }
{
    let mut left = left;
    let mut right = right;
    let mut found = no_marks();
    'elements: for number in 0..most {
        let same = left.next() == right.next();
        add_pair(same, (number / per_mark) as usize, &mut found);
    }
    found
}

fn time_and_samples(time: u8, samples: u8) -> PageDifference
    ensures { result ≡ Rattle.page.specs.Differences.time_and_samples time samples }
{
    PageDifference {
        time,
        samples,
        result: 0,
        output: 0,
        elements: 0,
        marks: [0; 64],
    }
}

/// Adds in which parts two outcomes differ.
fn add_outcomes(
    found: PageDifference,
    per_mark: u32,
    left: LentOutcome<'_>,
    right: LentOutcome<'_>,
) -> PageDifference
    requires some { 1 ≤ per_mark }
    requires outcomes { (a b : Outcome) × IsOutcomeOf left a × IsOutcomeOf right b }
    ensures { (a b : Outcome) → IsOutcomeOf left.entry a → IsOutcomeOf right.entry b
        → result ≡ with_outcomes found per_mark a b }
{
    let mut found = found;
    match left {
        LentOutcome::Refused(at) => match right {
            LentOutcome::Refused(other) => found.result = unless(at == other),
            LentOutcome::Finished { .. } => found.result = 1,
        },
        LentOutcome::Finished {
            count,
            elements,
            output,
        } => match right {
            LentOutcome::Refused(_) => found.result = 1,
            LentOutcome::Finished {
                count: other_count,
                elements: others,
                output: other,
            } => {
                let pairs = mark_elements(per_mark, count.max(other_count), elements, others);
                let marks = pairs.marks;
                found.output = unless(output == other);
                found.elements = pairs.count;
                found.marks = marks;
            }
        },
    }
    found
}

/// In which parts two runs differ.
fn run_difference(per_mark: u32, left: LentRun<'_>, right: LentRun<'_>) -> PageDifference
    requires some { 1 ≤ per_mark }
    requires runs { (a b : RunFrame) × IsRunOf left a × IsRunOf right b }
    ensures { (a b : RunFrame) → IsRunOf left.entry a → IsRunOf right.entry b
        → result ≡ difference_of per_mark a b }
{
    let most = left.input.samples.max(right.input.samples);
    let samples = view_samples(events_at(left.place), left.input, left.bytes);
    let others = view_samples(events_at(right.place), right.input, right.bytes);
    let time = unless(left.input.time == right.input.time);
    let samples = unless(are_same_samples(most, samples, others));
    let found = time_and_samples(time, samples);
    add_outcomes(found, per_mark, left.outcome(), right.outcome())
}

/// Puts in which parts the cycles of two records differ, as far as both have cycles and there is
/// room.
pub(crate) fn put_differences(
    per_mark: u32,
    first: &[u8],
    other: &[u8],
    rows: &mut [PageDifference],
)
    requires { 1 ≤ per_mark }
    ensures { rows.new ≡ overlay (differences_of per_mark first.now other.now) rows.old }
{
    let mut left = RecordWalk::new(first);
    let mut right = RecordWalk::new(other);
    let mut count = 0;
    'cycles: loop {
        let Some(ours) = left.next_run() else {
            return;
        };
        let Some(theirs) = right.next_run() else {
            return;
        };
        put_row(run_difference(per_mark, ours, theirs), rows, count);
        count += 1;
    }
}
