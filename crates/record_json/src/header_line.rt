//! The line of a header.
ghost use Rattle.std.specs.Prelude.{◌≡◌, ◌++◌, OnOk, codes, drop};
ghost use Rattle.std.specs.List.{flat_map};
ghost use Rattle.record_json.specs.Texts.{signed_text, listed};
ghost use Rattle.record_json.specs.Records.{format_text, policy_text, event_text};
ghost use Rattle.record_json.specs.Records.{front_text, header_line};

use crate::put_json::{put_exact, put_exact_signed};
use det_values::{EventSpec, Format, Policy, Profile};
use record_text::{put_number, put_str};
use std::alloc::AllocError;

fn put_more_params(out: &mut Vec<u8>, params: &[i64]) -> Result<(), AllocError>
    ensures { OnOk result (out.new.items
        ≡ out.old.items ++ flat_map (λ n. codes "," ++ signed_text n) params.now) }
{
    for param in params {
        put_str(out, ",")?;
        put_exact_signed(out, *param)?;
    }
    Ok(())
}

fn put_params(out: &mut Vec<u8>, params: &[i64]) -> Result<(), AllocError>
    ensures { OnOk result (out.new.items ≡ out.old.items ++ listed signed_text params.now) }
{
    match params {
        [] => Ok(()),
        [first, rest @ ..] => {
            put_exact_signed(out, *first)?;
            put_more_params(out, rest)
        }
    }
}

fn put_policy(out: &mut Vec<u8>, format: Format, policy: Policy) -> Result<(), AllocError>
    ensures { OnOk result (out.new.items ≡ out.old.items ++ policy_text format policy) }
{
    match (format, policy) {
        (Format::One, _) => Ok(()),
        (Format::Two, Policy::Last) => put_str(out, ",\"policy\":\"last\""),
        (Format::Two, Policy::Fresh) => put_str(out, ",\"policy\":\"fresh\""),
    }
}

fn put_event(out: &mut Vec<u8>, format: Format, event: &EventSpec) -> Result<(), AllocError>
    ensures { OnOk result (out.new.items ≡ out.old.items ++ event_text format event.now) }
{
    put_str(out, "{\"name\":\"")?;
    out.extend_from_slice(event.name.as_slice())?;
    put_str(out, "\",\"capacity\":")?;
    put_number(out, event.capacity as u64)?;
    put_policy(out, format, event.policy)?;
    put_str(out, "}")?;
    Ok(())
}

/// Appends all events but the first, each after a comma.
fn put_more_events(
    out: &mut Vec<u8>,
    format: Format,
    events: &[EventSpec],
) -> Result<(), AllocError>
    ensures { OnOk result (out.new.items
        ≡ out.old.items ++ flat_map (λ e. codes "," ++ event_text format e) (drop 1 events.now)) }
{
    for i in 1..events.len() {
        put_str(out, ",")?;
        put_event(out, format, &events[i])?;
    }
    Ok(())
}

fn put_events(out: &mut Vec<u8>, format: Format, events: &[EventSpec]) -> Result<(), AllocError>
    ensures { OnOk result
        (out.new.items ≡ out.old.items ++ listed (event_text format) events.now) }
{
    if events.is_empty() {
        return Ok(());
    }
    put_event(out, format, &events[0])?;
    put_more_events(out, format, events)?;
    Ok(())
}

fn put_format(out: &mut Vec<u8>, format: Format) -> Result<(), AllocError>
    ensures { OnOk result (out.new.items ≡ out.old.items ++ format_text format) }
{
    match format {
        Format::One => put_str(out, "1"),
        Format::Two => put_str(out, "2"),
    }
}

/// The members before the parameters.
fn put_front(out: &mut Vec<u8>, profile: &Profile) -> Result<(), AllocError>
    ensures { OnOk result (out.new.items ≡ out.old.items ++ front_text profile.now) }
{
    put_str(out, "{\"header\":{\"format\":")?;
    put_format(out, profile.format)?;
    put_str(out, ",\"job\":")?;
    put_number(out, profile.job as u64)?;
    put_str(out, ",\"seed\":")?;
    put_exact(out, profile.seed)?;
    put_str(out, ",\"cycle_time\":")?;
    put_exact(out, profile.cycle_time)?;
    Ok(())
}

/// Appends the line of a header. It has the format, the job's number, the seed, the cycle time in
/// nanoseconds, the parameters and the events. After `AllocError` a part of the line may be there.
pub fn put_json_header(out: &mut Vec<u8>, profile: &Profile) -> Result<(), AllocError>
    ensures { OnOk result (out.new.items ≡ out.old.items ++ header_line profile.now) }
{
    put_front(out, profile)?;
    put_str(out, ",\"params\":[")?;
    put_params(out, profile.params.as_slice())?;
    put_str(out, "],\"events\":[")?;
    put_events(out, profile.format, profile.events.as_slice())?;
    put_str(out, "]}}\n")?;
    Ok(())
}
