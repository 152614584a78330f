//! The bank's elements: channels, their levels and their bytes.

ghost use Rattle.std.specs.Prelude.{◌≡◌, ◌≤◌, ◌++◌};
ghost use Rattle.det_values.specs.Limits.{IsSampleValue};
ghost use Rattle.job_shared.specs.Bytes.{u16_bytes, i64_bytes};
ghost use Rattle.job_shared.specs.Samples.{IsSample};
ghost use Rattle.jobs.specs.bank.Meaning.{level_after};

use crate::bank::Bank;
use job_shared::{FirstElement, step_towards};

/// A channel: its event and its level, from -10^12 to 10^12.
#[derive(Clone, Copy, Debug, PartialEq, Eq, Drop)]
pub struct Channel {
    pub(crate) event: u16,
    pub(crate) level: i64,
}

/// A level after one step towards a target. Without a target it stays.
pub(crate) fn level_after(target: Option<i64>, level: i64, shift: u32) -> i64
    requires level { IsSampleValue level }
    requires target { IsSample target }
    requires shift { shift ≤ 16 }
    ensures step { result ≡ level_after target level shift }
    ensures limits { IsSampleValue result }
{
    match target {
        Some(target) => step_towards(level, target, shift),
        None => level,
    }
}

impl FirstElement<Bank> for Channel {
    ghost use Rattle.jobs.specs.bank.Meaning.{first_channel};

    ghost first = { first_channel };

    fn first_element(bank: &Bank, number: u32) -> Channel {
        Channel {
            event: bank.event_of(number),
            level: 0,
        }
    }
}

/// The event and the level, in 10 bytes. If there are fewer than two events, the level alone is
/// shown.
#[inline(always)]
pub(crate) fn channel_bytes(channel: &Channel) -> [u8; 10]
    ensures { result ≡ u16_bytes channel.now.event ++ i64_bytes channel.now.level }
{
    let mut bytes = [0; 10];
    bytes[..2].copy_from_slice(&channel.event.to_be_bytes());
    bytes[2..].copy_from_slice(&channel.level.to_be_bytes());
    bytes
}
