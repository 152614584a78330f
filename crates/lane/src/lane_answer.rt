//! `LaneAnswer`, how a lane ended, with its status and its line on standard error.
ghost use Rattle.std.specs.Prelude.{◌≡◌};
ghost use Rattle.cli_answers.specs.Answers.{ended};
ghost use Rattle.lane.specs.Answers.{child_failed_text, line_of, status_of};

use crate::lane_status::LaneStatus;
use cli_answers::{Answer, AnswerLine};
use det_io::Failure;
use record_grammar::RecordFault;

/// How a lane ended.
#[derive(Clone, Copy, Debug, PartialEq, Eq, Drop)]
pub enum LaneAnswer {
    Done,
    /// The copies differ. The place is on standard output, not in the line.
    Differs,
    BadWords,
    /// The copy, counted from 0, and its fault.
    BadRecord { copy: u32, fault: RecordFault },
    WriteFault,
    OutOfMemory,
    /// The first child, counted from 0, whose exit status counts and isn't 0.
    ChildFailed { child: u32, status: u8 },
    SpawnFault,
}

impl From<Failure> for LaneAnswer {
    ghost use Rattle.std.specs.Prelude.{◌≡◌};
    ghost use Rattle.lane.specs.Answers.{failed};

    ghost from_gives = { λ failure answer. answer ≡ failed failure };

    fn from(failure: Failure) -> LaneAnswer {
        match failure {
            Failure::Read => LaneAnswer::SpawnFault,
            Failure::Write => LaneAnswer::WriteFault,
            Failure::OutOfMemory => LaneAnswer::OutOfMemory,
        }
    }
}

fn child_failed_line(child: u32, status: u8) -> AnswerLine
    ensures { result ≡ ended (child_failed_text child status) }
{
    let mut line = AnswerLine::from_text("child ");
    line.push_number(child as u64);
    line.push(" status ");
    line.push_number(status as u64);
    line.push("\n");
    line
}

impl LaneAnswer {
    /// The exit status.
    pub fn status(self) -> LaneStatus
        ensures { result ≡ status_of self }
    {
        match self {
            LaneAnswer::Done => LaneStatus::Done,
            LaneAnswer::Differs => LaneStatus::Differs,
            LaneAnswer::BadWords => LaneStatus::BadWords,
            LaneAnswer::BadRecord { .. } => LaneStatus::BadRecord,
            LaneAnswer::WriteFault => LaneStatus::WriteFault,
            LaneAnswer::OutOfMemory => LaneStatus::OutOfMemory,
            LaneAnswer::ChildFailed { .. } => LaneStatus::ChildFailed,
            LaneAnswer::SpawnFault => LaneStatus::SpawnFault,
        }
    }

    /// The line for standard error, empty for `Done` and `Differs`. It allocates nothing.
    pub fn line(self) -> AnswerLine
        ensures { result ≡ line_of self }
    {
        match self {
            LaneAnswer::Done => AnswerLine::new(),
            LaneAnswer::Differs => AnswerLine::new(),
            LaneAnswer::BadWords => Answer::BadWords.line(),
            LaneAnswer::BadRecord { copy, fault } => Answer::BadRecord { copy, fault }.line(),
            LaneAnswer::WriteFault => Answer::WriteFault.line(),
            LaneAnswer::OutOfMemory => Answer::OutOfMemory.line(),
            LaneAnswer::ChildFailed { child, status } => child_failed_line(child, status),
            LaneAnswer::SpawnFault => AnswerLine::from_text("spawn fault\n"),
        }
    }
}
