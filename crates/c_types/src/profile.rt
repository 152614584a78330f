//! The header of a record: its profile, its parameters and its events.
ghost use Rattle.std.specs.Prelude.{◌≡◌, ◌≤◌, IfSome, IfNone};
ghost use Rattle.record_grammar.specs.Grammar.{policy_of};

use det_values::{EventName, EventSpec, Policy};

/// What a client and its job are made from, besides parameters and events.
#[repr(C)]
#[derive(Drop)]
pub struct DetProfile {
    pub seed: u64,
    /// In nanoseconds, 1 to 2^63 - 1.
    pub cycle_time: u64,
    pub job: u16,
}

/// An event. Its name is the first `len` bytes of `name`. The policy is 0 for the last samples and
/// 1 for fresh ones.
#[repr(C)]
#[derive(Drop)]
pub struct DetEvent {
    pub name: [u8; 32],
    pub capacity: u16,
    pub len: u8,
    pub policy: u8,
}

/// A header that was read. Only the first `param_count` parameters and the first `event_count`
/// events count. The format is 1 or 2.
#[repr(C)]
#[derive(Drop)]
pub struct DetHeader {
    pub profile: DetProfile,
    pub params: [i64; 16],
    pub events: [DetEvent; 256],
    pub param_count: u16,
    pub event_count: u16,
    pub format: u8,
}

fn policy(number: u8) -> Policy
    ensures { result ≡ policy_of number }
{
    match number {
        0 => Policy::Last,
        _ => Policy::Fresh,
    }
}

fn policy_number(policy: Policy) -> u8
    ensures value { policy_of result ≡ policy }
    ensures range { result ≤ 1 }
{
    match policy {
        Policy::Last => 0,
        Policy::Fresh => 1,
    }
}

impl DetEvent {
    ghost use Rattle.c_types.specs.CValues.{event_of};
    ghost use Rattle.c_types.specs.Ranges.{IsSoundEvent};

    /// The event. None if a field is out of its range.
    pub fn spec(&self) -> Option<EventSpec>
        ensures some { IfSome result (λ e. (e ≡ event_of self.now) × IsSoundEvent self.now) }
        ensures none { IfNone result (IsSoundEvent self.now → ⊥) }
    {
        if self.capacity == 0 || self.capacity > 1024 || self.len > 32 || self.policy > 1 {
            return None;
        }
        let name = EventName::from_bytes(&self.name[..usize::from(self.len)])?;
        Some(EventSpec {
            capacity: self.capacity,
            name,
            policy: policy(self.policy),
        })
    }

    /// The struct of an event.
    pub fn from_spec(event: &EventSpec) -> DetEvent
        ensures { event_of result ≡ event.now }
    {
        let bytes = event.name.as_slice();
        let mut name = [0; 32];
        name[..bytes.len()].copy_from_slice(bytes);
        DetEvent {
            name,
            capacity: event.capacity,
            len: bytes.len() as u8,
            policy: policy_number(event.policy),
        }
    }
}
