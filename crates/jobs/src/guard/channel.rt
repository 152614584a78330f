//! The guard's elements: channels, their corrections and their bytes.

ghost use Rattle.std.specs.Prelude.{◌≡◌, ◌+◌, ◌<◌, ◌≤◌, IfOk, length};
ghost use Rattle.job_shared.specs.Samples.{IsSample};
ghost use Rattle.job.specs.Meaning.{AgreesWithPart, joined_to};
ghost use Rattle.jobs.specs.guard.Meaning.{reading, channel_after, joined, shown};
ghost use Rattle.jobs.specs.guard.Ranges.{Own};

use crate::guard::{Corrections, Guard};
use job::JobFault;
use job_shared::{FirstElement, NewestSamples, sample_of};

/// A channel: its number, its event, the value that it holds, from -10^12 to 10^12, and the number
/// of its corrections in a row. It keeps the event, so that no cycle divides by the number of
/// events.
#[derive(Clone, Copy, Debug, PartialEq, Eq, Drop)]
pub struct Channel {
    pub(crate) number: u32,
    pub(crate) event: u16,
    pub(crate) held: i64,
    pub(crate) streak: u16,
}

impl FirstElement<Guard> for Channel {
    ghost use Rattle.jobs.specs.guard.Meaning.{first_channel};

    ghost first = { first_channel };

    fn first_element(guard: &Guard, number: u32) -> Channel {
        Channel {
            number,
            event: guard.event_of(number),
            held: 0,
            streak: 0,
        }
    }
}

/// The reading of a channel: the newest sample of its event.
#[inline(always)]
pub(crate) fn reading(samples: &NewestSamples, channel: &Channel) -> Option<i64>
    ensures { result ≡ reading samples.now channel.now }
{
    sample_of(samples, u32::from(channel.event))
}

/// A channel after a reading. If it is corrected, its number is added to `part`. It refuses with
/// code 1 at the correction in a row whose number is `limit`.
#[inline(always)]
pub(crate) fn channel_after(
    guard: &Guard,
    channel: &Channel,
    reading: Option<i64>,
    part: &mut Corrections,
) -> Result<Channel, JobFault>
    requires own { Own guard.now channel.now }
    requires reading { IsSample reading }
    requires room { length part.old < 65536 }
    ensures channel_after { AgreesWithPart result part.new
        (joined_to joined part.old (channel_after guard.now channel.now reading)) }
    ensures own { IfOk result (λ channel. Own guard.now channel) }
{
    let Some(value) = reading else {
        return Ok(*channel);
    };
    if guard.bounds.contains(value) {
        return Ok(Channel {
            number: channel.number,
            event: channel.event,
            held: value,
            streak: 0,
        });
    }
    if channel.streak + 1 >= guard.limit {
        return Err(JobFault::Code(1));
    }
    part.push(channel.number)?;
    Ok(Channel {
        number: channel.number,
        event: channel.event,
        held: channel.held,
        streak: channel.streak + 1,
    })
}

/// The number, the held value and the streak, in 14 bytes. The event follows from the number.
#[inline(always)]
pub(crate) fn channel_bytes(channel: &Channel) -> [u8; 14]
    ensures { result ≡ shown channel.now }
{
    let mut bytes = [0; 14];
    bytes[..4].copy_from_slice(&channel.number.to_be_bytes());
    bytes[4..12].copy_from_slice(&channel.held.to_be_bytes());
    bytes[12..].copy_from_slice(&channel.streak.to_be_bytes());
    bytes
}
