//! Samples, the data that events bring to a client.
use std::marker::Model;

/// One value of an event, from -10^12 to 10^12. `event` is its index in the profile, counted from
/// 0.
#[derive(Clone, Copy, Debug, PartialEq, Eq, Drop)]
pub struct Sample {
    pub event: u16,
    pub value: i64,
}

impl Model for Sample {
    ghost use Rattle.det_values.specs.Values.{SampleValue};
    ghost use Rattle.det_values.specs.Limits.{IsSampleValue};

    ghost Value = { SampleValue };

    ghost view = { λ s. record { event = s.event; value = s.value } };

    ghost invariant = { λ s. IsSampleValue s.value };

    ghost inverse = { λ v. record { event = v.event; value = v.value } };
}
