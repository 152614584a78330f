//! The header, put into the room that C gave.
#![tactic(auto, using(crate::proofs::Putting::puts_then))]

ghost use Rattle.std.specs.Prelude.{◌≡◌, ◌≤◌, ◌<◌, ◌^◌, [], ◌∷◌, ◌++◌, length, map};
ghost use Rattle.std.specs.Prelude.{FitsSigned};
ghost use Rattle.det_values.specs.declared.format.Format.TheVariants.{Two};
ghost use Rattle.std.specs.Int.{w64};
ghost use Rattle.std.specs.List.{flat_map, All};
ghost use Rattle.record_grammar.specs.Grammar.{policy_of};
ghost use Rattle.record_grammar.specs.Spelling.{spelled_signed, spelled_params, version, magic};
ghost use Rattle.record_grammar.specs.Spelling.{spelled_policy, spelled_event, spelled_events};
ghost use Rattle.record_grammar.specs.Spelling.{spelled_u64, spelled_header};
ghost use Rattle.det_values.specs.Spelling.{spelled_u16};
ghost use Rattle.c_types.specs.CValues.{event_of};
ghost use Rattle.c_types.specs.Ranges.{IsSoundEvent};
ghost use Rattle.det_record_c.specs.Items.{profile_in};
ghost use Rattle.det_record_c.specs.Puts.{Puts};

use crate::put::{put, put_i64, put_u8, put_u16, put_u64};
use c_types::{DetEvent, DetProfile};
use det_values::Format;

fn put_param_values(out: &mut [u8], at: usize, params: &[i64]) -> usize
    ensures puts { Puts at (flat_map spelled_signed params.now) out.old result out.new }
    ensures fields { All (FitsSigned w64) params.now }
{
    let mut end = at;
    for param in params {
        end = put_i64(out, end, param);
    }
    end
}

fn put_params(out: &mut [u8], at: usize, params: &[i64]) -> usize
    requires { length params.now ≤ 16 }
    ensures puts { Puts at (spelled_params params.now) out.old result out.new }
    ensures fields { All (FitsSigned w64) params.now }
{
    let at = put_u16(out, at, params.len() as u16);
    put_param_values(out, at, params)
}

fn policy_byte(policy: u8) -> u8
    ensures { spelled_policy Two (policy_of policy) ≡ result ∷ [] }
{
    match policy {
        0 => 0,
        _ => 1,
    }
}

fn put_policy(out: &mut [u8], at: usize, format: Format, policy: u8) -> usize
    ensures { Puts at (spelled_policy format (policy_of policy)) out.old result out.new }
{
    match format {
        Format::One => put(out, at, &[]),
        Format::Two => put_u8(out, at, policy_byte(policy)),
    }
}

fn put_event(out: &mut [u8], at: usize, format: Format, event: &DetEvent) -> usize
    requires { event.now.len ≤ 32 }
    ensures { Puts at (spelled_event format (event_of event.now)) out.old result out.new }
{
    let name = &event.name[..usize::from(event.len)];
    let at = put_u16(out, at, event.capacity);
    let at = put_u8(out, at, name.len() as u8);
    let at = put(out, at, name);
    put_policy(out, at, format, event.policy)
}

fn put_all_events(out: &mut [u8], at: usize, format: Format, events: &[DetEvent]) -> usize
    requires { All IsSoundEvent events.now }
    ensures { Puts at (flat_map (spelled_event format) (map event_of events.now)) out.old result
        out.new }
{
    let mut end = at;
    for event in events {
        end = put_event(out, end, format, event);
    }
    end
}

fn put_events(out: &mut [u8], at: usize, format: Format, events: &[DetEvent]) -> usize
    requires few { length events.now ≤ 256 }
    requires sound { All IsSoundEvent events.now }
    ensures { Puts at (spelled_events format (map event_of events.now)) out.old result out.new }
{
    let at = put_u16(out, at, events.len() as u16);
    put_all_events(out, at, format, events)
}

fn version_number(format: Format) -> u16
    ensures { result ≡ version format }
{
    match format {
        Format::One => 1,
        Format::Two => 2,
    }
}

#[tactic(auto, unfolding(record_grammar::specs::Spelling::magic))]
fn put_magic(out: &mut [u8], at: usize) -> usize
    ensures { Puts at magic out.old result out.new }
{
    put(out, at, b"DETREC")
}

/// The fields before the parameters.
fn put_numbers(out: &mut [u8], at: usize, format: Format, profile: &DetProfile) -> usize
    ensures puts { Puts at (magic ++ (spelled_u16 (version format) ++ (spelled_u16 profile.now.job
        ++ (spelled_u64 profile.now.seed ++ spelled_u64 profile.now.cycle_time))))
        out.old result out.new }
    ensures job { profile.now.job < 2 ^ 16 }
    ensures seed { profile.now.seed < 2 ^ 64 }
{
    let at = put_magic(out, at);
    let at = put_u16(out, at, version_number(format));
    let at = put_u16(out, at, profile.job);
    let at = put_u64(out, at, profile.seed);
    put_u64(out, at, profile.cycle_time)
}

pub(crate) fn put_header(
    out: &mut [u8],
    format: Format,
    profile: &DetProfile,
    params: &[i64],
    events: &[DetEvent],
) -> usize
    requires few_params { length params.now ≤ 16 }
    requires few_events { length events.now ≤ 256 }
    requires events { All IsSoundEvent events.now }
    ensures puts { Puts 0 (spelled_header (profile_in format profile.now params.now events.now))
        out.old result out.new }
    ensures job { profile.now.job < 2 ^ 16 }
    ensures seed { profile.now.seed < 2 ^ 64 }
    ensures params { All (FitsSigned w64) params.now }
{
    let at = put_numbers(out, 0, format, profile);
    let at = put_params(out, at, params);
    put_events(out, at, format, events)
}
