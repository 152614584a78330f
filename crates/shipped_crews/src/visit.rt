//! `Visit`: an operation on one run, whatever its job.
use det_io::{Sink, Slots};
use job::{Job, Pool};
use probes::{Audience, Probe};
use recorder::run_writer::Recording;

/// An operation on a recording and its pool, generic in the job. Nothing of the recording was
/// written yet. It starts no threads itself: the kit refuses a trait method's implementation that
/// does.
pub trait Visit: Drop + Sized {
    ghost use Rattle.det_values.specs.Values.{ProfileValue};
    ghost use Rattle.det_io.specs.Shelf.{ShelfState};
    ghost use Rattle.det_io.specs.Traffic.{ShelfRun, SinkRun, shelf_run, sink_run};
    ghost use Rattle.job.specs.Meaning.{Meaning};
    ghost use Rattle.probes.specs.Reports.{AudienceState};
    ghost use Rattle.probes.specs.Shows.{seen};
    ghost use Rattle.recorder.specs.run_writer.Recording.{IsNew};

    type Answer;

    /// What the operation requires of the profile and of the shelf.
    ghost Can: { Self → ProfileValue → ShelfState → Type 0 };

    /// What the operation ensures of its answer. Its arguments are the meaning of the job, the
    /// profile, and what was done to the shelf, the sink and the audience.
    ghost Gives: { (S G E L P : Type 0) → Meaning S G E L P → ProfileValue → Self → ShelfRun
        → SinkRun → AudienceState → AudienceState → Self.Answer → Type 0 };

    fn visit<J: Job, P: Pool<J>, S: Slots, K: Sink>(
        self,
        recording: &mut Recording<J>,
        pool: &mut P,
        shelf: &mut S,
        sink: &mut K,
        audience: &mut Audience,
    ) -> Self::Answer
        requires new { IsNew J.meaning recording.old }
        requires can { Can self recording.old.profile (S.sees shelf.old) }
        ensures { Gives _ _ _ _ _ J.meaning recording.old.profile self
            (shelf_run S.sees S.stays shelf.old shelf.new)
            (sink_run K.took K.faults sink.old sink.new)
            (seen (λ b. (⟦<dyn Probe as Probe>⟧ b.vtable).life b.value) audience.old)
            (seen (λ b. (⟦<dyn Probe as Probe>⟧ b.vtable).life b.value) audience.new) result };
}
