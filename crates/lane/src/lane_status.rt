//! The exit statuses of `det_lane`.
ghost use Rattle.std.specs.Prelude.{◌≡◌};
ghost use Rattle.lane.specs.Answers.{number_of};

/// The exit status of a run of `det_lane`.
#[derive(Clone, Copy, Debug, PartialEq, Eq, Drop)]
pub enum LaneStatus {
    /// The copies are one whole record, and all children ended with 0.
    Done,
    /// The copies differ.
    Differs,
    /// The arguments are no lane.
    BadWords,
    /// The record of a copy has a fault.
    BadRecord,
    /// Standard output failed.
    WriteFault,
    /// Memory ran out.
    OutOfMemory,
    /// A child ended with an exit status other than 0.
    ChildFailed,
    /// A child couldn't be started, read or waited for, or it ended without an exit status.
    SpawnFault,
}

impl LaneStatus {
    /// The number that the process exits with. 0 to 8 mean the same as for `det`.
    pub fn number(&self) -> u8
        ensures { result ≡ number_of self.now }
    {
        match self {
            LaneStatus::Done => 0,
            LaneStatus::Differs => 1,
            LaneStatus::BadWords => 2,
            LaneStatus::BadRecord => 5,
            LaneStatus::WriteFault => 7,
            LaneStatus::OutOfMemory => 8,
            LaneStatus::ChildFailed => 9,
            LaneStatus::SpawnFault => 10,
        }
    }
}
