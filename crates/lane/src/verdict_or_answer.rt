//! Decides between the verdict on the children's outputs and their exit statuses.
ghost use Rattle.std.specs.Prelude.{◌≡◌, ◌≤◌, None, length, slice_index_or};
ghost use Rattle.lane.specs.VerdictOrAnswer.{failure_of, failure_among, known_statuses};
ghost use Rattle.lane.specs.VerdictOrAnswer.{verdict_or_answer, refused_by};

use crate::lane_answer::LaneAnswer;
use copies::{BadCopy, Verdict};
use det_io::Stopped;
use record_grammar::Reason;

/// What the exit status of a child means: no failure for 0, and a spawn fault if it isn't known.
fn failure_of(child: u32, status: Option<u8>) -> Option<LaneAnswer>
    ensures { result ≡ failure_of child status }
{
    match status {
        Some(0) => None,
        Some(status) => Some(LaneAnswer::ChildFailed { child, status }),
        None => Some(LaneAnswer::SpawnFault),
    }
}

/// What the exit statuses of all children mean. A status that isn't known counts before one that
/// isn't 0, and the first child's before the others'.
fn failure_among(statuses: &[Option<u8>]) -> Option<LaneAnswer>
    requires { length statuses.now ≤ 8 }
    ensures { result ≡ failure_among (known_statuses statuses.now) }
{
    let mut first = None;
    for (child, status) in statuses.iter().enumerate() {
        if status.is_none() {
            return Some(LaneAnswer::SpawnFault);
        }
        first = first.or(failure_of(child as u32, *status));
    }
    first
}

/// A truncated record is its child's failure, if the child failed.
fn refused_by(bad: BadCopy, statuses: &[Option<u8>]) -> LaneAnswer
    ensures { result ≡ refused_by bad.fault.reason bad
        (slice_index_or statuses.now bad.copy None) }
{
    let bad_record = LaneAnswer::BadRecord {
        copy: bad.copy,
        fault: bad.fault,
    };
    if bad.fault.reason != Reason::Truncated {
        return bad_record;
    }
    let status = statuses.get(bad.copy as usize).copied().flatten();
    failure_of(bad.copy, status).unwrap_or(bad_record)
}

/// The verdict that is printed, or the answer if none is.
pub(crate) fn verdict_or_answer(
    compared: Result<Verdict, Stopped<BadCopy>>,
    statuses: &[Option<u8>],
) -> Result<Verdict, LaneAnswer>
    requires { length statuses.now ≤ 8 }
    ensures { result ≡ verdict_or_answer compared statuses.now }
{
    match compared {
        Ok(Verdict::Agree { cycles }) => match failure_among(statuses) {
            Some(failure) => Err(failure),
            None => Ok(Verdict::Agree { cycles }),
        },
        Ok(Verdict::Differ { copy, at }) => Ok(Verdict::Differ { copy, at }),
        Err(Stopped::Refused(bad)) => Err(refused_by(bad, statuses)),
        Err(Stopped::Failed(failure)) => Err(LaneAnswer::from(failure)),
    }
}
