//! `record_answer`, the answer of a command that reads one record.
ghost use Rattle.std.specs.Prelude.{◌≡◌, true};
ghost use Rattle.cli_answers.specs.Ends.{can_end, reads_records};
ghost use Rattle.cmd_records.specs.command_ends.Results.{answer_by};

use cli_answers::Answer;
use det_io::Stopped;
use record_grammar::RecordFault;

/// The answer by the result. The only record that is read is copy 0.
pub(crate) fn record_answer<T: Drop>(read: Result<T, Stopped<RecordFault>>) -> Answer
    ensures is { result ≡ answer_by (Answer.BadRecord 0) read }
    ensures ends { can_end reads_records result ≡ true }
{
    match read {
        Ok(_) => Answer::Done,
        Err(Stopped::Refused(fault)) => Answer::BadRecord { copy: 0, fault },
        Err(Stopped::Failed(failure)) => Answer::from(failure),
    }
}
