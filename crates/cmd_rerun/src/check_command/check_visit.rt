//! Adapts `check_run` to `Visit`, so that `with_crew` can call it.
use copies::CheckVerdict;
use det_io::{Sink, Slots, Stopped};
use job::{Job, Pool};
use probes::{Audience, Probe};
use record_grammar::RecordFault;
use record_reader::FrameReader;
use recorder::run_writer::Recording;
use rerun::checker::check_run;
use shipped_crews::Visit;

/// Checks a record. Only its header was read before.
#[derive(Drop)]
pub(crate) struct Check {
    pub frames: FrameReader,
}

impl Visit for Check {
    ghost use Rattle.record_reader.specs.Frames.{IsOpen};
    ghost use Rattle.cmd_rerun.specs.check_command.CheckVisit.{HasChecked};

    type Answer = Result<CheckVerdict, Stopped<RecordFault>>;

    ghost Can = { λ check profile shelf. IsOpen check.frames profile shelf };

    ghost Gives = { λ s g e l p m profile check shelf sink audience last result.
        HasChecked m profile check.frames shelf sink audience last result };

    fn visit<J: Job, P: Pool<J>, S: Slots, K: Sink>(
        self,
        recording: &mut Recording<J>,
        pool: &mut P,
        shelf: &mut S,
        sink: &mut K,
        audience: &mut Audience,
    ) -> Result<CheckVerdict, Stopped<RecordFault>> {
        let Check { mut frames } = self;
        check_run(recording, pool, &mut frames, shelf, audience)
    }
}
