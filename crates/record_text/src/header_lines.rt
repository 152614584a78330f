//! The lines of a header.
ghost use Rattle.std.specs.Prelude.{◌≡◌, ◌++◌, OnOk, codes};
ghost use Rattle.std.specs.Fmt.{signed_decimal};
ghost use Rattle.std.specs.List.{flat_map};
ghost use Rattle.record_text.specs.Words.{numbered_texts};
ghost use Rattle.record_text.specs.Records.{params_text, params_line};
ghost use Rattle.record_text.specs.Records.{policy_text, format_line, event_line, front_lines};
ghost use Rattle.record_text.specs.Records.{header_lines};

use crate::put_text::{put_number, put_number_line, put_signed, put_str};
use det_values::{EventSpec, Events, Format, Params, Policy, Profile};
use std::alloc::AllocError;

fn put_spaced_params(out: &mut Vec<u8>, params: &[i64]) -> Result<(), AllocError>
    ensures { OnOk result (out.new.items
        ≡ out.old.items ++ flat_map (λ n. codes " " ++ signed_decimal n) params.now) }
{
    for param in params {
        put_str(out, " ")?;
        put_signed(out, *param)?;
    }
    Ok(())
}

fn put_params(out: &mut Vec<u8>, params: &[i64]) -> Result<(), AllocError>
    ensures { OnOk result (out.new.items ≡ out.old.items ++ params_text params.now) }
{
    match params {
        [] => put_str(out, " -"),
        _ => put_spaced_params(out, params),
    }
}

fn put_params_line(out: &mut Vec<u8>, params: &Params) -> Result<(), AllocError>
    ensures { OnOk result (out.new.items ≡ out.old.items ++ params_line params.now) }
{
    put_str(out, "params")?;
    put_params(out, params.as_slice())?;
    put_str(out, "\n")?;
    Ok(())
}

fn put_policy(out: &mut Vec<u8>, format: Format, policy: Policy) -> Result<(), AllocError>
    ensures { OnOk result (out.new.items ≡ out.old.items ++ policy_text format policy) }
{
    match (format, policy) {
        (Format::One, _) => Ok(()),
        (Format::Two, Policy::Last) => put_str(out, " last"),
        (Format::Two, Policy::Fresh) => put_str(out, " fresh"),
    }
}

fn put_event_line(
    out: &mut Vec<u8>,
    format: Format,
    number: usize,
    event: &EventSpec,
) -> Result<(), AllocError>
    ensures { OnOk result (out.new.items ≡ out.old.items ++ event_line format number event.now) }
{
    put_str(out, "event ")?;
    put_number(out, number as u64)?;
    put_str(out, " ")?;
    out.extend_from_slice(event.name.as_slice())?;
    put_str(out, " ")?;
    put_number(out, event.capacity as u64)?;
    put_policy(out, format, event.policy)?;
    put_str(out, "\n")?;
    Ok(())
}

fn put_each_event(out: &mut Vec<u8>, format: Format, events: &[EventSpec]) -> Result<(), AllocError>
    ensures { OnOk result
        (out.new.items ≡ out.old.items ++ numbered_texts (event_line format) 0 events.now) }
{
    for i in 0..events.len() {
        put_event_line(out, format, i, &events[i])?;
    }
    Ok(())
}

fn put_event_lines(out: &mut Vec<u8>, format: Format, events: &Events) -> Result<(), AllocError>
    ensures { OnOk result
        (out.new.items ≡ out.old.items ++ numbered_texts (event_line format) 0 events.now) }
{
    put_each_event(out, format, events.as_slice())
}

fn put_format_line(out: &mut Vec<u8>, format: Format) -> Result<(), AllocError>
    ensures { OnOk result (out.new.items ≡ out.old.items ++ format_line format) }
{
    match format {
        Format::One => Ok(()),
        Format::Two => put_str(out, "format 2\n"),
    }
}

/// The lines before those of the parameters.
fn put_front_lines(out: &mut Vec<u8>, profile: &Profile) -> Result<(), AllocError>
    ensures { OnOk result (out.new.items ≡ out.old.items ++ front_lines profile.now) }
{
    put_format_line(out, profile.format)?;
    put_number_line(out, "job", profile.job as u64)?;
    put_number_line(out, "seed", profile.seed)?;
    put_number_line(out, "cycle_time", profile.cycle_time)?;
    Ok(())
}

/// Appends the lines of a header. They give its format if that is 2, the job's number, the seed,
/// the cycle time in nanoseconds, the parameters and the events. After `AllocError` a part of the
/// lines may be there.
pub fn put_header_lines(out: &mut Vec<u8>, profile: &Profile) -> Result<(), AllocError>
    ensures { OnOk result (out.new.items ≡ out.old.items ++ header_lines profile.now) }
{
    put_front_lines(out, profile)?;
    put_params_line(out, &profile.params)?;
    put_event_lines(out, profile.format, &profile.events)?;
    Ok(())
}
