//! `BadRun`: why a record has no run that can run again.
ghost use Rattle.std.specs.Prelude.{◌≡◌};
ghost use Rattle.run_setup.specs.recorded_run.Run.{bad_run_answer, as_bad_run};

use cli_answers::Answer;
use det_io::Stopped;
use record_grammar::RecordFault;

/// Why a record has no run that can run again.
#[derive(Clone, Copy, Debug, PartialEq, Eq, Drop)]
pub enum BadRun {
    /// The record has this fault before the end of its header.
    Fault(RecordFault),
    /// No shipped job has the number in the header, or that job refuses the parameters in it.
    Profile,
}

/// The reason why a record without a whole header has no run.
pub(crate) fn as_bad_run(end: Stopped<RecordFault>) -> Stopped<BadRun>
    ensures { result ≡ as_bad_run end }
{
    match end {
        Stopped::Refused(fault) => Stopped::Refused(BadRun::Fault(fault)),
        Stopped::Failed(failure) => Stopped::Failed(failure),
    }
}

/// The answer of a command without a run. The one record that it reads is copy 0.
pub fn bad_run_answer(end: Stopped<BadRun>) -> Answer
    ensures { result ≡ bad_run_answer end }
{
    match end {
        Stopped::Refused(BadRun::Fault(fault)) => Answer::BadRecord { copy: 0, fault },
        Stopped::Refused(BadRun::Profile) => Answer::BadProfile,
        Stopped::Failed(failure) => Answer::from(failure),
    }
}
