//! `VisitTwo`: an operation on two runs, whatever their jobs.
use det_io::{Sink, Slots};
use job::{Job, Pool};
use recorder::run_writer::Runner;

/// An operation on two recordings and their pools, generic in both jobs. Nothing of either
/// recording was written yet.
pub trait VisitTwo: Drop + Sized {
    ghost use Rattle.det_values.specs.Values.{ProfileValue};
    ghost use Rattle.det_io.specs.Shelf.{ShelfState};
    ghost use Rattle.det_io.specs.Traffic.{ShelfRun, SinkRun, shelf_run, sink_run};
    ghost use Rattle.job.specs.Meaning.{Meaning};
    ghost use Rattle.recorder.specs.run_writer.Recording.{IsNew};

    type Answer;

    /// What the operation requires of the two profiles and of the shelf.
    ghost Can: { Self → ProfileValue → ProfileValue → ShelfState → Type 0 };

    /// What the operation ensures of its answer. Its arguments are the meaning of each job, its
    /// profile, and what was done to the shelf and the two sinks.
    ghost Gives: { (S G E L P : Type 0) → Meaning S G E L P → ProfileValue
        → (T H F M Q : Type 0) → Meaning T H F M Q → ProfileValue
        → Self → ShelfRun → SinkRun → SinkRun → Self.Answer → Type 0 };

    fn visit_two<A: Job, P: Pool<A>, B: Job, Q: Pool<B>, S: Slots, K: Sink, L: Sink>(
        self,
        first: &mut Runner<A, P>,
        second: &mut Runner<B, Q>,
        shelf: &mut S,
        first_sink: &mut K,
        second_sink: &mut L,
    ) -> Self::Answer
        requires first { IsNew A.meaning first.old.recording }
        requires second { IsNew B.meaning second.old.recording }
        requires can { Can self first.old.recording.profile second.old.recording.profile
            (S.sees shelf.old) }
        ensures { Gives _ _ _ _ _ A.meaning first.old.recording.profile
            _ _ _ _ _ B.meaning second.old.recording.profile self
            (shelf_run S.sees S.stays shelf.old shelf.new)
            (sink_run K.took K.faults first_sink.old first_sink.new)
            (sink_run L.took L.faults second_sink.old second_sink.new) result };
}
