//! The command `demo` and its built-in profile.
ghost use Rattle.std.specs.Prelude.{◌≡◌, ◌∷◌, [], IfOk, true};
ghost use Rattle.det_io.specs.Count.{Rose};
ghost use Rattle.det_io.specs.Shelf.{AsksPrefix};
ghost use Rattle.det_io.specs.Traffic.{sink_run};
ghost use Rattle.cli_answers.specs.Ends.{can_end};
ghost use Rattle.cli_answers.specs.Outcome.{Meets, KnowsBytes, known_bytes};
ghost use Rattle.cli_answers.specs.Slots.{KeepsSlots};
ghost use Rattle.cmd_run.specs.record_command.Outcomes.{demo_outcome, demo_profile, demo_work};

use crate::record_command::over_stimulus::record_named_stimulus;
use cli_answers::Answer;
use det_io::{Shelf, Sink};
use det_values::{EventName, EventSpec, Events, Format, JobKind, Params, Policy, Profile};
use shipped_crews::{Host, ShippedRun};
use std::alloc::{AllocError, Global};
use std::thread::Threads;

fn demo_events(alloc: Global) -> Result<Events, AllocError>
    ensures { IfOk result (λ events. events ≡ demo_profile.events) }
{
    let mut events = Events::new(alloc);
    let Some(name) = EventName::from_bytes(b"x") else {
        unreachable!()
    };
    events.push(EventSpec {
        capacity: 2,
        name,
        policy: Policy::Last,
    })?;
    Ok(events)
}

fn demo_params(alloc: Global) -> Result<Params, AllocError>
    ensures { IfOk result (λ params. params ≡ demo_profile.params) }
{
    let mut params = Params::new(alloc);
    params.extend_from_slice(&[4, 2])?;
    Ok(params)
}

fn demo_profile(alloc: Global) -> Result<Profile, AllocError>
    ensures { IfOk result (λ profile. profile ≡ demo_profile) }
{
    let params = demo_params(alloc)?;
    let events = demo_events(alloc)?;
    Ok(Profile {
        format: Format::Two,
        job: JobKind::Bank.number(),
        seed: 0,
        cycle_time: 10_000_000,
        params,
        events,
    })
}

/// Writes the record of the built-in profile over the stimulus of this name.
pub fn demo<S, K, R>(host: &Host<'_, R>, stimulus: &str, shelf: &mut S, out: &mut K) -> Answer
where
    S: Shelf,
    K: Sink,
    R: Threads,
    ensures meets { Meets (demo_outcome (known_bytes (S.sees shelf.old) stimulus.now))
        (KnowsBytes (S.sees shelf.old) (stimulus.now ∷ []))
        (Rose (S.sees shelf.old).faults (S.sees shelf.new).faults)
        (sink_run K.took K.faults out.old out.new) result }
    ensures ends { can_end demo_work result ≡ true }
    ensures asked { AsksPrefix (S.sees shelf.old) (S.sees shelf.new) (stimulus.now ∷ []) }
    ensures earlier { KeepsSlots (S.sees shelf.old) (S.sees shelf.new) }
{
    let Ok(profile) = demo_profile(host.alloc) else {
        return Answer::OutOfMemory;
    };
    let kind = JobKind::Bank;
    let run = ShippedRun { kind, profile };
    record_named_stimulus(&host.workers(1), run, stimulus, shelf, out)
}
