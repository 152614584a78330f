//! `TwinAnswer`, how twins ended, with its status and its line on standard error.
ghost use Rattle.std.specs.Prelude.{◌≡◌};
ghost use Rattle.twin_cli.specs.Answers.{line_of, status_of};

use cli_answers::{Answer, AnswerLine, BadManifest, Status};
use det_io::{Failure, Stopped, TooLong};
use stimulus::StimulusFault;

/// How twins ended.
#[derive(Clone, Copy, Debug, PartialEq, Eq, Drop)]
pub enum TwinAnswer {
    Done,
    /// The copies differ. The place is on standard output, not in the line.
    Differs,
    BadWords,
    BadManifest(BadManifest),
    /// The number of the bad line, counted from 1.
    BadStimulus { line: u64 },
    /// The stimulus has more than 1,048,576 bytes.
    LongStimulus,
    ReadFault,
    WriteFault,
    OutOfMemory,
}

impl From<Failure> for TwinAnswer {
    ghost use Rattle.std.specs.Prelude.{◌≡◌};
    ghost use Rattle.twin_cli.specs.Answers.{failed};

    ghost from_gives = { λ failure answer. answer ≡ failed failure };

    fn from(failure: Failure) -> TwinAnswer {
        match failure {
            Failure::Read => TwinAnswer::ReadFault,
            Failure::Write => TwinAnswer::WriteFault,
            Failure::OutOfMemory => TwinAnswer::OutOfMemory,
        }
    }
}

impl From<Stopped<BadManifest>> for TwinAnswer {
    ghost use Rattle.std.specs.Prelude.{◌≡◌};
    ghost use Rattle.twin_cli.specs.Answers.{without_manifest};

    ghost from_gives = { λ stopped answer. answer ≡ without_manifest stopped };

    fn from(stopped: Stopped<BadManifest>) -> TwinAnswer {
        match stopped {
            Stopped::Refused(why) => TwinAnswer::BadManifest(why),
            Stopped::Failed(failure) => TwinAnswer::from(failure),
        }
    }
}

impl From<Stopped<TooLong>> for TwinAnswer {
    ghost use Rattle.std.specs.Prelude.{◌≡◌};
    ghost use Rattle.twin_cli.specs.Answers.{without_text};

    ghost from_gives = { λ stopped answer. answer ≡ without_text stopped };

    fn from(stopped: Stopped<TooLong>) -> TwinAnswer {
        match stopped {
            Stopped::Refused(TooLong) => TwinAnswer::LongStimulus,
            Stopped::Failed(failure) => TwinAnswer::from(failure),
        }
    }
}

impl From<Stopped<StimulusFault>> for TwinAnswer {
    ghost use Rattle.std.specs.Prelude.{◌≡◌};
    ghost use Rattle.twin_cli.specs.Answers.{without_stimulus};

    ghost from_gives = { λ stopped answer. answer ≡ without_stimulus stopped };

    fn from(stopped: Stopped<StimulusFault>) -> TwinAnswer {
        match stopped {
            Stopped::Refused(fault) => TwinAnswer::BadStimulus { line: fault.line },
            Stopped::Failed(failure) => TwinAnswer::from(failure),
        }
    }
}

impl TwinAnswer {
    /// The exit status.
    pub fn status(self) -> Status
        ensures { result ≡ status_of self }
    {
        match self {
            TwinAnswer::Done => Status::Done,
            TwinAnswer::Differs => Status::Differs,
            TwinAnswer::BadWords => Status::BadWords,
            TwinAnswer::BadManifest(_) => Status::BadManifest,
            TwinAnswer::BadStimulus { .. } => Status::BadStimulus,
            TwinAnswer::LongStimulus => Status::BadStimulus,
            TwinAnswer::ReadFault => Status::ReadFault,
            TwinAnswer::WriteFault => Status::WriteFault,
            TwinAnswer::OutOfMemory => Status::OutOfMemory,
        }
    }

    /// The line for standard error, empty for `Done` and `Differs`. It allocates nothing.
    pub fn line(self) -> AnswerLine
        ensures { result ≡ line_of self }
    {
        match self {
            TwinAnswer::Done => AnswerLine::new(),
            TwinAnswer::Differs => AnswerLine::new(),
            TwinAnswer::BadWords => Answer::BadWords.line(),
            TwinAnswer::BadManifest(why) => Answer::BadManifest(why).line(),
            TwinAnswer::BadStimulus { line } => Answer::BadStimulus { line }.line(),
            TwinAnswer::LongStimulus => AnswerLine::from_text("bad stimulus: too long\n"),
            TwinAnswer::ReadFault => Answer::ReadFault.line(),
            TwinAnswer::WriteFault => Answer::WriteFault.line(),
            TwinAnswer::OutOfMemory => Answer::OutOfMemory.line(),
        }
    }
}
