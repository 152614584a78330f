//! The profile: all that a run depends on besides its inputs.
use crate::{Events, Format, Params};
use std::marker::Model;

/// What a client and its job are made from. The cycle time is in nanoseconds, 1 to 2^63 - 1. In
/// format One every event has the policy `Last`. The number `job` need not be that of a shipped
/// job, and two events may have the same name.
#[derive(Debug, PartialEq, Drop)]
pub struct Profile {
    pub format: Format,
    pub job: u16,
    pub seed: u64,
    pub cycle_time: u64,
    pub params: Params,
    pub events: Events,
}

impl Model for Profile {
    ghost use Rattle.det_values.specs.Values.{ProfileValue};
    ghost use Rattle.det_values.specs.Limits.{IsCycleTime, KnowsPolicies};

    ghost Value = { ProfileValue };

    ghost view = { λ p. record {
      format = p.format;
      job = p.job;
      seed = p.seed;
      cycle_time = p.cycle_time;
      params = p.params;
      events = p.events;
    } };

    ghost invariant = { λ p. IsCycleTime p.cycle_time × KnowsPolicies p.format p.events };

    ghost inverse = { λ v. record {
      format = v.format;
      job = v.job;
      seed = v.seed;
      cycle_time = v.cycle_time;
      params = v.params;
      events = v.events;
    } };
}
