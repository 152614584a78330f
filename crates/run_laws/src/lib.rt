//! Laws of whole runs, which join several commands.
//!
//! They say what the record of a run is read as, and what `show`, `replay`, `check`, `upgrade` and
//! `salvage` make of it. They say when `compare` and `vote` are done, what a chain makes of its two
//! clients, and what `sim` sums up. Each function is empty, and its contract is the law.
#![tactic(auto)]

ghost use Rattle.run_laws.specs.Statements.{RecordIsRead, DemoIsRead, RecordIsShown, DemoIsShown};
ghost use Rattle.run_laws.specs.Statements.{RecordIsReplayed, DemoIsReplayed};
ghost use Rattle.run_laws.specs.Chains.{FirstIsRecorded, ChainIsRead};
ghost use Rattle.run_laws.specs.Copies.{CopiesAreCompared};
ghost use Rattle.run_laws.specs.Votes.{MajorityIsWritten, DoneIsMajority, SplitIsCommon};
ghost use Rattle.run_laws.specs.Votes.{AnsweredAlike, OthersAreNamed, NoneIsNamed};
ghost use Rattle.run_laws.specs.Checks.{RecordIsChecked, DemoIsChecked, GenuineIsReplayed};
ghost use Rattle.run_laws.specs.Checks.{GenuineIsUpgraded, FormatTwoStays};
ghost use Rattle.run_laws.specs.Salvages.{InitIsEnough, SalvagedIsWhole, WholeIsKept};
ghost use Rattle.run_laws.specs.Salvages.{RecordIsSalvaged, DemoIsSalvaged};
ghost use Rattle.run_laws.specs.Sums.{SimIsRecorded};

/// The record of a manifest and a stimulus is read as its profile and the frames of its run, and as
/// nothing else.
///
/// The manifest is one that is accepted, and the stimulus may be any bytes. If a bad line ends it,
/// the record is truncated after the frames of the complete blocks.
pub fn decode_law()
    ensures record { RecordIsRead }
    ensures demo { DemoIsRead }
{}

/// Of that record `show` prints the lines of the profile and of those frames, and then what its
/// audience reports of the cycles. If a bad line ended the stimulus, it prints the lines and no
/// reports, and says that the record is truncated.
pub fn show_law()
    ensures record { RecordIsShown }
    ensures demo { DemoIsShown }
{}

/// `replay` writes that record again, byte for byte, and is done. If a bad line ended the stimulus,
/// it writes the same bytes and says that the record is truncated.
pub fn replay_law()
    ensures record { RecordIsReplayed }
    ensures demo { DemoIsReplayed }
{}

/// `compare` is done exactly if all copies are one whole record, byte for byte. Then it prints that
/// they agree, and how many cycles they have.
pub fn compare_law()
    ensures { CopiesAreCompared }
{}

/// `vote` is done exactly if more than half of the copies are one whole record. Then it has written
/// that record.
pub fn vote_law()
    ensures written { MajorityIsWritten }
    ensures done { DoneIsMajority }
{}

/// If `vote` finds no majority, no whole record is that of more than half of the copies. More than
/// half of them begin with the bytes that it has written. These are the most such rows, and it
/// reports their number.
pub fn split_law()
    ensures { SplitIsCommon }
{}

/// `vote --dissent` has the same answer as `vote`. If it is done, the copies that it names are
/// exactly those that aren't the record that `vote` writes, byte for byte. If all copies are one
/// whole record, it names none.
#[tactic(auto, using(crate::proofs::Dissenters::dissenters))]
pub fn dissent_law()
    ensures answer { AnsweredAlike }
    ensures named { OthersAreNamed }
    ensures none { NoneIsNamed }
{}

/// The record of a chain's first client, which isn't written, is the one that `record` writes for
/// the first manifest.
///
/// What `chain` writes is read as the second manifest's profile and the frames of its run over the
/// inputs that the first client passes on. `check` finds it genuine. If a bad line ended the
/// stimulus, it is truncated.
pub fn chain_law()
    ensures first { FirstIsRecorded }
    ensures second { ChainIsRead }
{}

/// Of the record of a run `check` says that it is genuine, with the number of its cycles and what
/// its audience reports of them. If a bad line ended the stimulus, it says that the record is
/// truncated.
pub fn check_law()
    ensures record { RecordIsChecked }
    ensures demo { DemoIsChecked }
{}

/// For any bytes, `check` is done exactly if `replay` is done and writes the same bytes again.
pub fn genuine_law()
    ensures { GenuineIsReplayed }
{}

/// `upgrade` makes a genuine record into a genuine one of the same inputs in format 2. A genuine
/// record in format 2 stays as it is.
pub fn upgrade_law()
    ensures genuine { GenuineIsUpgraded }
    ensures format_two { FormatTwoStays }
{}

/// `salvage` is done exactly if Init was read. Then it writes a whole record: the header and the
/// frames that were read, ended by Terminate, and so the same cycles.
///
/// A whole record comes out unchanged, byte for byte, and so does the record of a run. If a bad
/// line ended the stimulus, the output is the record of the complete blocks, ended.
#[tactic(auto, using(crate::proofs::RecordsSalvaged::salvages))]
pub fn salvage_law()
    ensures done { InitIsEnough }
    ensures whole { SalvagedIsWhole }
    ensures kept { WholeIsKept }
    ensures record { RecordIsSalvaged }
    ensures demo { DemoIsSalvaged }
{}

/// What `sim` prints for a number sums up a record that `record` writes. Its manifest has the
/// profile of `sim`, its stimulus is made of the number, and its seed is the number.
pub fn sum_law()
    ensures { SimIsRecorded }
{}
