//! The events that a profile lists, and their window policies.
use crate::EventName;
use std::alloc::AllocError;
use std::marker::Model;

/// Which samples of an event a cycle sees: `Last` keeps the last ones of all earlier cycles,
/// `Fresh` only those of the cycle before.
#[derive(Clone, Copy, Debug, PartialEq, Eq, Drop)]
pub enum Policy {
    Last,
    Fresh,
}

/// An event that a client reads. Its window holds at most `capacity` samples, 1 to 1,024.
#[derive(Debug, PartialEq, Drop)]
pub struct EventSpec {
    pub capacity: u16,
    pub name: EventName,
    pub policy: Policy,
}

impl Model for EventSpec {
    ghost use Rattle.det_values.specs.Values.{EventSpecValue};
    ghost use Rattle.det_values.specs.Limits.{IsCapacity};

    ghost Value = { EventSpecValue };

    ghost view = { λ e. record { capacity = e.capacity; name = e.name; policy = e.policy } };

    ghost invariant = { λ e. IsCapacity e.capacity };

    ghost inverse = { λ v. record { capacity = v.capacity; name = v.name; policy = v.policy } };
}

impl Clone for EventSpec {
    ghost use Rattle.std.specs.Prelude.{◌≡◌};

    ghost is_clone = { λ a b. b ≡ a };

    ghost is_infallible = { λ _. Unit {0} };

    fn clone(&self) -> Result<EventSpec, AllocError> {
        let name = self.name.clone()?;
        Ok(EventSpec {
            capacity: self.capacity,
            name,
            policy: self.policy,
        })
    }
}
