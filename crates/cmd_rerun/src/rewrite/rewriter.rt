//! `Rewriter`: adapts `replay_run` and `upgrade_run` to `Visit`, so that `with_crew` can call them.
ghost use Rattle.std.specs.Prelude.{◌≡◌};
ghost use Rattle.cmd_rerun.specs.rewrite.RewriteVisit.{profile_of_run};

use crate::rewrite::record_rest::{replay_rest, upgrade_rest};
use cli_answers::Answer;
use det_io::{Sink, Slots};
use det_values::{Format, Profile};
use job::{Job, Pool};
use probes::Audience;
use recorder::run_writer::Recording;
use rerun::upgrader::Original;
use shipped_crews::Visit;

/// Which record is written of the run that the inputs of a record give.
#[derive(Clone, Copy, Drop)]
pub(crate) enum Rewrite {
    /// The whole run, in the format of the record that is read.
    Replay,
    /// The run up to the first frame that the record has otherwise, in format 2.
    Upgrade,
}

/// The profile of the run that is written, by that of the record that is read.
pub(crate) fn profile_of_run(rewrite: Rewrite, original: Profile) -> Profile
    ensures { result ≡ profile_of_run rewrite original }
{
    match rewrite {
        Rewrite::Replay => original,
        Rewrite::Upgrade => Profile {
            format: Format::Two,
            ..original
        },
    }
}

/// Rewrites a record. Only its header was read before.
#[derive(Drop)]
pub(crate) struct Rewriter {
    pub rewrite: Rewrite,
    pub original: Original,
}

impl Visit for Rewriter {
    ghost use Rattle.cmd_rerun.specs.rewrite.RewriteVisit.{CanRewrite, header_by};
    ghost use Rattle.cmd_rerun.specs.rewrite.RewriteVisit.{outcome_with, work_of};
    ghost use Rattle.cmd_rerun.specs.Rest.{IsRerun};

    type Answer = Answer;

    ghost Can = { λ rewriter profile shelf.
        CanRewrite rewriter.rewrite rewriter.original profile shelf };

    ghost Gives = { λ s g e l p m profile rewriter shelf sink audience last answer.
        IsRerun (outcome_with rewriter.rewrite m
        (header_by rewriter.rewrite rewriter.original profile)) (work_of rewriter.rewrite)
        (header_by rewriter.rewrite rewriter.original profile) rewriter.original.frames
        shelf sink answer };

    fn visit<J: Job, P: Pool<J>, S: Slots, K: Sink>(
        self,
        recording: &mut Recording<J>,
        pool: &mut P,
        shelf: &mut S,
        sink: &mut K,
        audience: &mut Audience,
    ) -> Answer {
        let Rewriter {
            rewrite,
            mut original,
        } = self;
        match rewrite {
            Rewrite::Replay => replay_rest(recording, pool, &mut original.frames, shelf, sink),
            Rewrite::Upgrade => upgrade_rest(recording, pool, &mut original, shelf, sink),
        }
    }
}
