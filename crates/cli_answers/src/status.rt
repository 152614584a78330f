//! The exit statuses of `det`.
ghost use Rattle.std.specs.Prelude.{◌≡◌};
ghost use Rattle.cli_answers.specs.Statuses.{number_of};

/// The exit status of a run, without what its line reports.
#[derive(Clone, Copy, Debug, PartialEq, Eq, Drop)]
pub enum Status {
    /// The command did what it was asked for, and all bytes were written.
    Done,
    /// The copies differ, or the record differs from the run of its own inputs.
    Differs,
    /// The arguments are no command.
    BadWords,
    /// The manifest is refused.
    BadManifest,
    /// The stimulus has a bad line.
    BadStimulus,
    /// The record has a fault, or its profile is refused.
    BadRecord,
    /// A file couldn't be opened or read.
    ReadFault,
    /// Standard output failed.
    WriteFault,
    /// Memory ran out.
    OutOfMemory,
    /// No record is that of more than half of the copies.
    NoMajority,
}

impl Status {
    /// The number that the process exits with, 0 to 9 in the order above.
    pub fn number(&self) -> u8
        ensures { result ≡ number_of self.now }
    {
        match self {
            Status::Done => 0,
            Status::Differs => 1,
            Status::BadWords => 2,
            Status::BadManifest => 3,
            Status::BadStimulus => 4,
            Status::BadRecord => 5,
            Status::ReadFault => 6,
            Status::WriteFault => 7,
            Status::OutOfMemory => 8,
            Status::NoMajority => 9,
        }
    }
}
