//! `StimulusIn`: the stimulus in a slot as a visitor, of one run to record it and of two to chain
//! them over it.
use crate::chain::{ChainCounts, chain_run};
use det_io::{Sink, Slots, Stopped};
use job::{Job, Pool};
use probes::{Audience, Probe};
use recorder::record_run;
use recorder::run_writer::{Counts, Recording, Runner};
use shipped_crews::{Visit, VisitTwo};
use stimulus::StimulusFault;
use stimulus::slot_reader::StimulusReader;

/// The stimulus in a slot, which may name this many events.
#[derive(Drop)]
pub(crate) struct StimulusIn {
    pub slot: u32,
    pub events: u16,
}

/// Records the stimulus.
impl Visit for StimulusIn {
    ghost use Rattle.cmd_run.specs.StimulusVisit.{CanRead, HasRecorded};

    type Answer = Result<Counts, Stopped<StimulusFault>>;

    ghost Can = { λ stimulus profile shelf. CanRead stimulus.slot stimulus.events profile shelf };

    ghost Gives = { λ s g e l p m profile stimulus shelf sink audience last result.
        HasRecorded m profile stimulus.slot shelf sink audience last result };

    fn visit<J: Job, P: Pool<J>, S: Slots, K: Sink>(
        self,
        recording: &mut Recording<J>,
        pool: &mut P,
        shelf: &mut S,
        sink: &mut K,
        audience: &mut Audience,
    ) -> Result<Counts, Stopped<StimulusFault>> {
        let mut stimulus = StimulusReader::from_slot(recording.alloc(), self.slot, self.events);
        record_run(recording, pool, &mut stimulus, shelf, sink, audience)
    }
}

/// Chains two clients over the stimulus.
impl VisitTwo for StimulusIn {
    ghost use Rattle.cmd_run.specs.StimulusVisit.{CanRead, HasChained};

    type Answer = Result<ChainCounts, Stopped<StimulusFault>>;

    ghost Can = { λ stimulus first second shelf.
        CanRead stimulus.slot stimulus.events first shelf };

    ghost Gives = { λ s g e l p m first t h f k q n second stimulus shelf first_sink second_sink
        result. HasChained m first n second stimulus.slot shelf first_sink second_sink result };

    fn visit_two<A: Job, P: Pool<A>, B: Job, Q: Pool<B>, S: Slots, K: Sink, L: Sink>(
        self,
        first: &mut Runner<A, P>,
        second: &mut Runner<B, Q>,
        shelf: &mut S,
        first_sink: &mut K,
        second_sink: &mut L,
    ) -> Result<ChainCounts, Stopped<StimulusFault>> {
        let alloc = first.recording.alloc();
        let mut stimulus = StimulusReader::from_slot(alloc, self.slot, self.events);
        chain_run(first, second, &mut stimulus, shelf, first_sink, second_sink)
    }
}
