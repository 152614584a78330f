//! The laws of a record that was written to its end, and of a cycle that is written in several
//! calls.
ghost use Rattle.det_record_c.specs.Statements.{WholeRecord, CycleInCalls};

/// A record whose place is the end is the spelling of a profile and of the frames of a run.
pub fn whole_record()
    ensures { WholeRecord }
{}

/// The bytes of opening a cycle, of its elements and of closing it are its frame.
pub fn cycle_in_calls()
    ensures { CycleInCalls }
{}
