//! Headers and their parts, appended to a record.
#![tactic(auto, using(crate::proofs::Appending::grows_then))]

ghost use Rattle.std.specs.Prelude.{◌≡◌, ◌≤◌, ◌<◌, ◌^◌, ◌++◌, length, OnOk, FitsSigned, ℤ};
ghost use Rattle.std.specs.Int.{w64};
ghost use Rattle.std.specs.List.{flat_map, All};
ghost use Rattle.det_values.specs.Limits.{IsCycleTime, KnowsPolicies};
ghost use Rattle.record_grammar.specs.Spelling.{spelled_signed, spelled_params, version};
ghost use Rattle.record_grammar.specs.Spelling.{policy_number, spelled_policy, spelled_event};
ghost use Rattle.record_grammar.specs.Spelling.{IsEvent, spelled_events, magic, spelled_numbers};
ghost use Rattle.record_grammar.specs.Spelling.{spelled_header, IsHeader};
ghost use Rattle.det_values.specs.Spelling.{Grows};

use crate::put_field::{put_i64, put_u8, put_u64};
use det_values::put::{put_slice, put_u16};
use det_values::{EventSpec, Events, Format, Params, Policy, Profile};
use std::alloc::AllocError;

fn put_param_values(out: &mut Vec<u8>, params: &[i64]) -> Result<(), AllocError>
    ensures ok { OnOk result (out.new.items ≡ out.old.items ++ flat_map spelled_signed params.now) }
    ensures grows { Grows out.old.items out.new.items }
    ensures fields { OnOk result (All (FitsSigned w64) params.now) }
{
    for param in params {
        put_i64(out, param)?;
    }
    Ok(())
}

fn put_params(out: &mut Vec<u8>, params: &Params) -> Result<(), AllocError>
    ensures ok { OnOk result (out.new.items ≡ out.old.items ++ spelled_params params.now) }
    ensures grows { Grows out.old.items out.new.items }
    ensures fields { OnOk result (All (FitsSigned w64) params.now) }
    ensures few { length params.now ≤ 16 }
{
    let params = params.as_slice();
    put_u16(out, params.len() as u16)?;
    put_param_values(out, params)?;
    Ok(())
}

fn put_policy(out: &mut Vec<u8>, format: Format, policy: Policy) -> Result<(), AllocError>
    ensures ok { OnOk result (out.new.items ≡ out.old.items ++ spelled_policy format policy) }
    ensures grows { Grows out.old.items out.new.items }
{
    match (format, policy) {
        (Format::One, _) => Ok(()),
        (Format::Two, Policy::Last) => put_u8(out, 0),
        (Format::Two, Policy::Fresh) => put_u8(out, 1),
    }
}

fn put_event(out: &mut Vec<u8>, format: Format, event: &EventSpec) -> Result<(), AllocError>
    ensures ok { OnOk result (out.new.items ≡ out.old.items ++ spelled_event format event.now) }
    ensures grows { Grows out.old.items out.new.items }
    ensures fields { OnOk result (IsEvent event.now) }
{
    put_u16(out, event.capacity)?;
    let name = event.name.as_slice();
    put_u8(out, name.len() as u8)?;
    put_slice(out, name)?;
    put_policy(out, format, event.policy)?;
    Ok(())
}

fn put_all_events(out: &mut Vec<u8>, format: Format, events: &[EventSpec]) -> Result<(), AllocError>
    ensures ok { OnOk result (out.new.items ≡ out.old.items ++ flat_map
        (spelled_event format) events.now) }
    ensures grows { Grows out.old.items out.new.items }
    ensures fields { OnOk result (All IsEvent events.now) }
{
    for event in events {
        put_event(out, format, event)?;
    }
    Ok(())
}

fn put_events(out: &mut Vec<u8>, format: Format, events: &Events) -> Result<(), AllocError>
    ensures ok { OnOk result (out.new.items ≡ out.old.items ++ spelled_events format events.now) }
    ensures grows { Grows out.old.items out.new.items }
    ensures fields { OnOk result (All IsEvent events.now) }
    ensures few { length events.now ≤ 256 }
{
    let events = events.as_slice();
    put_u16(out, events.len() as u16)?;
    put_all_events(out, format, events)?;
    Ok(())
}

fn version_number(format: Format) -> u16
    ensures { result ≡ version format }
{
    match format {
        Format::One => 1,
        Format::Two => 2,
    }
}

#[tactic(auto, using(crate::proofs::Appending::grows_then), unfolding(record_grammar::specs::Spelling::magic))]
fn put_magic(out: &mut Vec<u8>) -> Result<(), AllocError>
    ensures ok { OnOk result (out.new.items ≡ out.old.items ++ magic) }
    ensures grows { Grows out.old.items out.new.items }
{
    put_slice(out, b"DETREC")
}

/// The fields before the parameters.
#[tactic(auto, using(crate::proofs::Appending::grows_then), unfolding(record_grammar::specs::Spelling::spelled_numbers))]
fn put_header_numbers(out: &mut Vec<u8>, profile: &Profile) -> Result<(), AllocError>
    ensures ok { OnOk result (out.new.items ≡ out.old.items ++ spelled_numbers profile.now) }
    ensures grows { Grows out.old.items out.new.items }
    ensures job { OnOk result (profile.now.job < 2 ^ 16) }
    ensures seed { OnOk result (profile.now.seed < 2 ^ 64) }
    ensures cycle_time { OnOk result (IsCycleTime profile.now.cycle_time) }
    ensures policies { OnOk result (KnowsPolicies profile.now.format profile.now.events) }
{
    put_magic(out)?;
    put_u16(out, version_number(profile.format))?;
    put_u16(out, profile.job)?;
    put_u64(out, profile.seed)?;
    put_u64(out, profile.cycle_time)?;
    Ok(())
}

/// The spelling of a header. On an error a part of it may be there.
#[tactic(auto, using(crate::proofs::Appending::grows_then), unfolding(record_grammar::specs::Spelling::spelled_header))]
pub fn put_header(out: &mut Vec<u8>, profile: &Profile) -> Result<(), AllocError>
    ensures ok { OnOk result (out.new.items ≡ out.old.items ++ spelled_header profile.now) }
    ensures grows { Grows out.old.items out.new.items }
    ensures fields { OnOk result (IsHeader profile.now) }
{
    put_header_numbers(out, profile)?;
    put_params(out, &profile.params)?;
    put_events(out, profile.format, &profile.events)?;
    Ok(())
}
