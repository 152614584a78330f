//! Fills the struct of a header from the header's bytes.
ghost use Rattle.std.specs.Prelude.{◌≡◌, ◌≤◌, ℕ, List, length, map, take};
ghost use Rattle.det_values.specs.Values.{ProfileValue};
ghost use Rattle.record_grammar.specs.Read.{Got, many};
ghost use Rattle.record_grammar.specs.Grammar.{signed_at, name_byte_at, name_at, policy_of};
ghost use Rattle.record_grammar.specs.Grammar.{policy_at, event_at, profile_at};
ghost use Rattle.record_view.specs.Gives.{Gives};
ghost use Rattle.c_types.specs.CValues.{event_of};
ghost use Rattle.det_reading_c.specs.Headers.{profile_in};

use c_types::{DetEvent, DetHeader, DetProfile, format_number};
use det_values::Format;
use record_view::{Stop, i64_at, magic, name_byte, u8_at, u16_at, u64_at, version};

const MAX_PARAMS: u16 = 16;

const MAX_EVENTS: u16 = 256;

const MAX_CAPACITY: u16 = 1_024;

const MAX_NAME: u8 = 32;

fn fill_params<'a>(params: &mut [i64], count: u16, bytes: &'a [u8]) -> Result<&'a [u8], Stop>
    requires { count ≤ length params.old }
    ensures { Gives (λ rest. (take count params.new, rest.now)) result
        (many signed_at count bytes.now) }
{
    let mut rest = bytes;
    'params: for index in 0..count {
        match i64_at(rest) {
            Err(stop) => return Err(stop),
            Ok((param, after)) => {
                params[usize::from(index)] = param;
                rest = after;
            }
        }
    }
    Ok(rest)
}

/// A name of `len` bytes, and the rest.
fn name_of(len: u8, bytes: &[u8]) -> Result<([u8; 32], &[u8]), Stop>
    requires { len ≤ 32 }
    ensures { Gives (λ x. (take len x.0, x.1.now)) result (many name_byte_at len bytes.now) }
{
    let mut name = [0; 32];
    let mut rest = bytes;
    'name: for index in 0..len {
        match name_byte(rest) {
            Err(stop) => return Err(stop),
            Ok((byte, after)) => {
                name[usize::from(index)] = byte;
                rest = after;
            }
        }
    }
    Ok((name, rest))
}

/// The bytes of a name, their number, and the rest.
#[tactic(auto, unfolding(record_grammar::specs::Grammar::name_at))]
fn name(bytes: &[u8]) -> Result<([u8; 32], u8, &[u8]), Stop>
    ensures { Gives (λ x. (take x.1 x.0, x.2.now)) result (name_at bytes.now) }
{
    let (len, rest) = u8_at(1, MAX_NAME, bytes)?;
    let (name, rest) = name_of(len, rest)?;
    Ok((name, len, rest))
}

/// The number of a policy, and the rest.
#[tactic(auto, unfolding(record_grammar::specs::Grammar::policy_at))]
fn policy(format: Format, bytes: &[u8]) -> Result<(u8, &[u8]), Stop>
    ensures { Gives (λ x. (policy_of x.0, x.1.now)) result (policy_at format bytes.now) }
{
    match format {
        Format::One => Ok((0, bytes)),
        Format::Two => u8_at(0, 1, bytes),
    }
}

#[tactic(auto, unfolding(record_grammar::specs::Grammar::event_at))]
fn event(format: Format, bytes: &[u8]) -> Result<(DetEvent, &[u8]), Stop>
    ensures { Gives (λ x. (event_of x.0, x.1.now)) result (event_at format bytes.now) }
{
    let (capacity, rest) = u16_at(1, MAX_CAPACITY, bytes)?;
    let (name, len, rest) = name(rest)?;
    let (policy, rest) = policy(format, rest)?;
    let event = DetEvent {
        name,
        capacity,
        len,
        policy,
    };
    Ok((event, rest))
}

fn fill_events<'a>(
    events: &mut [DetEvent],
    format: Format,
    count: u16,
    bytes: &'a [u8],
) -> Result<&'a [u8], Stop>
    requires { count ≤ length events.old }
    ensures { Gives (λ rest. (map event_of (take count events.new), rest.now)) result
        (many (event_at format) count bytes.now) }
{
    let mut rest = bytes;
    'events: for index in 0..count {
        match event(format, rest) {
            Err(stop) => return Err(stop),
            Ok((event, after)) => {
                events[usize::from(index)] = event;
                rest = after;
            }
        }
    }
    Ok(rest)
}

#[tactic(auto, unfolding(record_grammar::specs::Grammar::profile_at, record_grammar::specs::Grammar::params_at, record_grammar::specs::Grammar::events_at))]
fn read_header<'a>(header: &mut DetHeader, bytes: &'a [u8]) -> Result<&'a [u8], Stop>
    ensures { Gives (λ rest. (profile_in header.new, rest.now)) result (profile_at bytes.now) }
{
    let (_, rest) = magic(bytes)?;
    let (format, rest) = version(rest)?;
    let (job, rest) = u16_at(0, u16::MAX, rest)?;
    let (seed, rest) = u64_at(0, u64::MAX, rest)?;
    let (cycle_time, rest) = u64_at(1, i64::MAX as u64, rest)?;
    let (params, rest) = u16_at(0, MAX_PARAMS, rest)?;
    let rest = fill_params(&mut header.params, params, rest)?;
    let (events, rest) = u16_at(0, MAX_EVENTS, rest)?;
    let rest = fill_events(&mut header.events, format, events, rest)?;
    header.profile = DetProfile {
        seed,
        cycle_time,
        job,
    };
    header.param_count = params;
    header.event_count = events;
    header.format = format_number(format);
    Ok(rest)
}

/// Fills the struct of a header. The bytes were checked before, so no read fails.
pub(crate) fn fill_header(header: &mut DetHeader, bytes: &[u8])
    requires { (p : ProfileValue) × (rest : List ℕ) × (profile_at bytes.now ≡ Got (p, rest)) }
    ensures { (p : ProfileValue) (rest : List ℕ) → profile_at bytes.now ≡ Got (p, rest)
        → profile_in header.new ≡ p }
{
    match read_header(header, bytes) {
        Ok(_) => {}
        Err(_) => unreachable!(),
    }
}
