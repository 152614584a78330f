//! Decodes a header into a profile. A view keeps only a header's layout, so every field is read and
//! checked here once more.
ghost use Rattle.std.specs.Prelude.{◌≡◌, ◌≤◌, length, IfOk};
ghost use Rattle.record_grammar.specs.Read.{many};
ghost use Rattle.record_grammar.specs.Grammar.{signed_at, name_byte_at, name_at, policy_of};
ghost use Rattle.record_grammar.specs.Grammar.{policy_at, event_at, params_at, events_at};
ghost use Rattle.record_grammar.specs.Grammar.{profile_at};
ghost use Rattle.record_codec.specs.Gives.{Gives};
ghost use Rattle.record_codec.specs.Policies.{KnowsPolicy};
ghost use Rattle.det_values.specs.Limits.{KnowsPolicies};

use crate::header_stop::HeaderStop;
use det_values::{EventName, EventSpec, Events, Format, Limited, Params, Policy, Profile};
use record_view::{i64_at, magic, name_byte, u8_at, u16_at, u64_at, version};
use std::alloc::Global;

const MAX_PARAMS: u16 = 16;

const MAX_EVENTS: u16 = 256;

const MAX_CAPACITY: u16 = 1_024;

const MAX_NAME: u8 = 32;

fn param_list(alloc: Global, count: u16, bytes: &[u8]) -> Result<(Params, &[u8]), HeaderStop>
    requires { count ≤ 16 }
    ensures { Gives (λ x. (x.0, x.1.now)) result (many signed_at count bytes.now) }
{
    let mut params = Vec::new(alloc);
    let mut rest = bytes;
    for _ in 0..count {
        let (param, after) = i64_at(rest)?;
        match params.push(param) {
            Err(_) => return Err(HeaderStop::Memory),
            Ok(()) => rest = after,
        }
    }
    Ok((Limited::from_vec(params), rest))
}

#[tactic(auto, unfolding(record_grammar::specs::Grammar::params_at))]
fn params(alloc: Global, bytes: &[u8]) -> Result<(Params, &[u8]), HeaderStop>
    ensures { Gives (λ x. (x.0, x.1.now)) result (params_at bytes.now) }
{
    let (count, rest) = u16_at(0, MAX_PARAMS, bytes)?;
    param_list(alloc, count, rest)
}

/// A name of `len` bytes. Each byte is checked before the next one is read.
fn event_name_of(len: u8, bytes: &[u8]) -> Result<(EventName, &[u8]), HeaderStop>
    requires some { 1 ≤ len }
    requires most { len ≤ 32 }
    ensures { Gives (λ x. (x.0, x.1.now)) result (many name_byte_at len bytes.now) }
{
    let mut rest = bytes;
    for _ in 0..len {
        let (_, after) = name_byte(rest)?;
        rest = after;
    }
    let (name, rest) = bytes.split_at(len as usize);
    match EventName::from_bytes(name) {
        Some(name) => Ok((name, rest)),
        None => unreachable!(),
    }
}

#[tactic(auto, unfolding(record_grammar::specs::Grammar::name_at))]
fn name(bytes: &[u8]) -> Result<(EventName, &[u8]), HeaderStop>
    ensures { Gives (λ x. (x.0, x.1.now)) result (name_at bytes.now) }
{
    let (len, rest) = u8_at(1, MAX_NAME, bytes)?;
    event_name_of(len, rest)
}

fn as_policy(n: u8) -> Policy
    ensures { result ≡ policy_of n }
{
    match n {
        0 => Policy::Last,
        _ => Policy::Fresh,
    }
}

#[tactic(auto, unfolding(record_grammar::specs::Grammar::policy_at))]
fn policy(format: Format, bytes: &[u8]) -> Result<(Policy, &[u8]), HeaderStop>
    ensures gives { Gives (λ x. (x.0, x.1.now)) result (policy_at format bytes.now) }
    ensures known { IfOk result (λ x. KnowsPolicy format x.0) }
{
    match format {
        Format::One => Ok((Policy::Last, bytes)),
        Format::Two => {
            let (n, rest) = u8_at(0, 1, bytes)?;
            Ok((as_policy(n), rest))
        }
    }
}

#[tactic(auto, unfolding(record_grammar::specs::Grammar::event_at))]
fn event(format: Format, bytes: &[u8]) -> Result<(EventSpec, &[u8]), HeaderStop>
    ensures gives { Gives (λ x. (x.0, x.1.now)) result (event_at format bytes.now) }
    ensures known { IfOk result (λ x. KnowsPolicy format x.0.policy) }
{
    let (capacity, rest) = u16_at(1, MAX_CAPACITY, bytes)?;
    let (name, rest) = name(rest)?;
    let (policy, rest) = policy(format, rest)?;
    let event = EventSpec {
        capacity,
        name,
        policy,
    };
    Ok((event, rest))
}

fn event_list(
    alloc: Global,
    format: Format,
    count: u16,
    bytes: &[u8],
) -> Result<(Events, &[u8]), HeaderStop>
    requires { count ≤ 256 }
    ensures gives { Gives (λ x. (x.0, x.1.now)) result (many (event_at format) count bytes.now) }
    ensures known { IfOk result (λ x. KnowsPolicies format x.0) }
{
    let mut events = Vec::new(alloc);
    let mut rest = bytes;
    for _ in 0..count {
        let (event, after) = event(format, rest)?;
        match events.push(event) {
            Err(_) => return Err(HeaderStop::Memory),
            Ok(()) => rest = after,
        }
    }
    Ok((Limited::from_vec(events), rest))
}

#[tactic(auto, unfolding(record_grammar::specs::Grammar::events_at))]
fn events(alloc: Global, format: Format, bytes: &[u8]) -> Result<(Events, &[u8]), HeaderStop>
    ensures gives { Gives (λ x. (x.0, x.1.now)) result (events_at format bytes.now) }
    ensures known { IfOk result (λ x. KnowsPolicies format x.0) }
{
    let (count, rest) = u16_at(0, MAX_EVENTS, bytes)?;
    event_list(alloc, format, count, rest)
}

/// The profile of the header at the front of some bytes, and the rest.
#[tactic(auto, unfolding(record_grammar::specs::Grammar::profile_at))]
pub fn profile(alloc: Global, bytes: &[u8]) -> Result<(Profile, &[u8]), HeaderStop>
    ensures { Gives (λ x. (x.0, x.1.now)) result (profile_at bytes.now) }
{
    let (_, rest) = magic(bytes)?;
    let (format, rest) = version(rest)?;
    let (job, rest) = u16_at(0, u16::MAX, rest)?;
    let (seed, rest) = u64_at(0, u64::MAX, rest)?;
    let (cycle_time, rest) = u64_at(1, i64::MAX as u64, rest)?;
    let (params, rest) = params(alloc, rest)?;
    let (events, rest) = events(alloc, format, rest)?;
    let profile = Profile {
        format,
        job,
        seed,
        cycle_time,
        params,
        events,
    };
    Ok((profile, rest))
}
