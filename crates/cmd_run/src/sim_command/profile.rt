//! The built-in profile of `sim`.
ghost use Rattle.std.specs.Prelude.{◌≡◌, IfOk};
ghost use Rattle.cmd_run.specs.sim_command.Sim.{sim_event, sim_profile};

use det_values::{EventName, EventSpec, Events, Format, JobKind, Params, Policy, Profile};
use std::alloc::{AllocError, Global};

fn sim_event(name: EventName) -> EventSpec
    ensures { result ≡ sim_event name }
{
    EventSpec {
        capacity: 1,
        name,
        policy: Policy::Last,
    }
}

fn sim_events(alloc: Global) -> Result<Events, AllocError>
    ensures { IfOk result (λ events. events ≡ (sim_profile 0).events) }
{
    let mut events = Events::new(alloc);
    let Some(x) = EventName::from_bytes(b"x") else {
        unreachable!()
    };
    let Some(y) = EventName::from_bytes(b"y") else {
        unreachable!()
    };
    let Some(hold) = EventName::from_bytes(b"hold") else {
        unreachable!()
    };
    events.push(sim_event(x))?;
    events.push(sim_event(y))?;
    events.push(sim_event(hold))?;
    Ok(events)
}

fn sim_params(alloc: Global) -> Result<Params, AllocError>
    ensures { IfOk result (λ params. params ≡ (sim_profile 0).params) }
{
    let mut params = Params::new(alloc);
    params.extend_from_slice(&[10_000, 1_000, 50, 4_000_000_000_000])?;
    Ok(params)
}

/// The profile of the cloud, with this number as its seed.
pub(crate) fn sim_profile(alloc: Global, number: u64) -> Result<Profile, AllocError>
    ensures { IfOk result (λ profile. profile ≡ sim_profile number) }
{
    let params = sim_params(alloc)?;
    let events = sim_events(alloc)?;
    Ok(Profile {
        format: Format::Two,
        job: JobKind::Cloud.number(),
        seed: number,
        cycle_time: 10_000_000,
        params,
        events,
    })
}
