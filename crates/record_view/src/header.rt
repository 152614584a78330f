//! Headers. Of a header only the layout is kept, on which the frames depend.
ghost use Rattle.std.specs.Prelude.{◌≡◌, ◌≤◌, IfOk};
ghost use Rattle.record_grammar.specs.Read.{many};
ghost use Rattle.record_grammar.specs.Grammar.{signed_at, exactly_at, magic_at, format_at};
ghost use Rattle.record_grammar.specs.Grammar.{version_at, name_byte_at, name_at};
ghost use Rattle.record_grammar.specs.Grammar.{policy_at, event_at, params_at, events_at};
ghost use Rattle.record_grammar.specs.Grammar.{profile_at};
ghost use Rattle.record_grammar.specs.Places.{layout_of};
ghost use Rattle.record_view.specs.Gives.{Gives};
ghost use Rattle.record_view.specs.Skips.{SkipsTo, SkipsMany, SkipsAs};

use crate::number::{i64_at, u8_at, u16_at, u64_at};
use crate::stop::Stop;
use det_values::Format;
use record_grammar::{Layout, Reason};

const MAX_PARAMS: u16 = 16;

const MAX_EVENTS: u16 = 256;

const MAX_CAPACITY: u16 = 1_024;

const MAX_NAME: u8 = 32;

fn exactly(reason: Reason, expected: u8, bytes: &[u8]) -> Result<(u8, &[u8]), Stop>
    ensures { Gives (λ x. (x.0, x.1.now)) result (exactly_at reason expected bytes.now) }
{
    match bytes {
        [] => Err(Stop::More),
        [byte, rest @ ..] => {
            if *byte == expected {
                Ok((expected, rest))
            } else {
                Err(Stop::Bad {
                    reason,
                    left: bytes.len(),
                })
            }
        }
    }
}

/// Reads the text DETREC. Returns its last byte, and the rest.
#[tactic(auto, unfolding(record_grammar::specs::Grammar::magic_at))]
pub fn magic(bytes: &[u8]) -> Result<(u8, &[u8]), Stop>
    ensures { Gives (λ x. (x.0, x.1.now)) result (magic_at bytes.now) }
{
    let (_, rest) = exactly(Reason::Magic, b'D', bytes)?;
    let (_, rest) = exactly(Reason::Magic, b'E', rest)?;
    let (_, rest) = exactly(Reason::Magic, b'T', rest)?;
    let (_, rest) = exactly(Reason::Magic, b'R', rest)?;
    let (_, rest) = exactly(Reason::Magic, b'E', rest)?;
    exactly(Reason::Magic, b'C', rest)
}

#[tactic(auto, unfolding(record_grammar::specs::Grammar::format_at))]
fn format_of(bytes: &[u8]) -> Result<(Format, &[u8]), Stop>
    ensures { Gives (λ x. (x.0, x.1.now)) result (format_at bytes.now) }
{
    match bytes {
        [] => Err(Stop::More),
        [1, rest @ ..] => Ok((Format::One, rest)),
        [2, rest @ ..] => Ok((Format::Two, rest)),
        [_, ..] => Err(Stop::Bad {
            reason: Reason::Version,
            left: bytes.len(),
        }),
    }
}

/// The format, and the rest.
#[tactic(auto, unfolding(record_grammar::specs::Grammar::version_at))]
pub fn version(bytes: &[u8]) -> Result<(Format, &[u8]), Stop>
    ensures { Gives (λ x. (x.0, x.1.now)) result (version_at bytes.now) }
{
    let (_, rest) = exactly(Reason::Version, 0, bytes)?;
    format_of(rest)
}

#[tactic(auto, using(crate::proofs::Over::over_begin, crate::proofs::Over::over_next))]
fn skip_all_params(count: u16, bytes: &[u8]) -> Result<&[u8], Stop>
    ensures { SkipsMany (λ x. x.now) count result (many signed_at count bytes.now) }
{
    let mut rest = bytes;
    for _ in 0..count {
        match i64_at(rest) {
            Err(stop) => return Err(stop),
            Ok((_, others)) => rest = others,
        }
    }
    Ok(rest)
}

#[tactic(auto, unfolding(record_grammar::specs::Grammar::params_at))]
fn skip_params(bytes: &[u8]) -> Result<&[u8], Stop>
    ensures { SkipsTo (λ x. x.now) result (params_at bytes.now) }
{
    let (count, rest) = u16_at(0, MAX_PARAMS, bytes)?;
    skip_all_params(count, rest)
}

/// One byte of an event's name, and the rest.
#[tactic(auto, unfolding(record_grammar::specs::Grammar::name_byte_at))]
pub fn name_byte(bytes: &[u8]) -> Result<(u8, &[u8]), Stop>
    ensures { Gives (λ x. (x.0, x.1.now)) result (name_byte_at bytes.now) }
{
    match bytes {
        [] => Err(Stop::More),
        [byte, rest @ ..] => {
            if matches!(*byte, b'a'..=b'z' | b'0'..=b'9' | b'_') {
                Ok((*byte, rest))
            } else {
                Err(Stop::Bad {
                    reason: Reason::Range,
                    left: bytes.len(),
                })
            }
        }
    }
}

#[tactic(auto, using(crate::proofs::Over::over_begin, crate::proofs::Over::over_next))]
fn skip_name_of(len: u8, bytes: &[u8]) -> Result<&[u8], Stop>
    ensures { SkipsMany (λ x. x.now) len result (many name_byte_at len bytes.now) }
{
    let mut rest = bytes;
    for _ in 0..len {
        match name_byte(rest) {
            Err(stop) => return Err(stop),
            Ok((_, others)) => rest = others,
        }
    }
    Ok(rest)
}

#[tactic(auto, unfolding(record_grammar::specs::Grammar::name_at))]
fn skip_name(bytes: &[u8]) -> Result<&[u8], Stop>
    ensures { SkipsTo (λ x. x.now) result (name_at bytes.now) }
{
    let (len, rest) = u8_at(1, MAX_NAME, bytes)?;
    skip_name_of(len, rest)
}

#[tactic(auto, unfolding(record_grammar::specs::Grammar::policy_at))]
fn skip_policy(format: Format, bytes: &[u8]) -> Result<&[u8], Stop>
    ensures { SkipsTo (λ x. x.now) result (policy_at format bytes.now) }
{
    match format {
        Format::One => Ok(bytes),
        Format::Two => match u8_at(0, 1, bytes) {
            Err(stop) => Err(stop),
            Ok((_, rest)) => Ok(rest),
        },
    }
}

#[tactic(auto, unfolding(record_grammar::specs::Grammar::event_at))]
fn skip_event(format: Format, bytes: &[u8]) -> Result<&[u8], Stop>
    ensures { SkipsTo (λ x. x.now) result (event_at format bytes.now) }
{
    let (_, rest) = u16_at(1, MAX_CAPACITY, bytes)?;
    let rest = skip_name(rest)?;
    let rest = skip_policy(format, rest)?;
    Ok(rest)
}

#[tactic(auto, using(crate::proofs::Over::over_begin, crate::proofs::Over::over_next))]
fn skip_all_events(format: Format, count: u16, bytes: &[u8]) -> Result<&[u8], Stop>
    ensures { SkipsMany (λ x. x.now) count result (many (event_at format) count bytes.now) }
{
    let mut rest = bytes;
    for _ in 0..count {
        match skip_event(format, rest) {
            Err(stop) => return Err(stop),
            Ok(others) => rest = others,
        }
    }
    Ok(rest)
}

/// The format and the number of events of a header, and the rest.
#[tactic(auto, unfolding(record_grammar::specs::Grammar::profile_at, record_grammar::specs::Grammar::events_at))]
pub fn layout(bytes: &[u8]) -> Result<(Layout, &[u8]), Stop>
    ensures { SkipsAs layout_of (λ x. (x.0, x.1.now)) result (profile_at bytes.now) }
{
    let (_, rest) = magic(bytes)?;
    let (format, rest) = version(rest)?;
    let (_, rest) = u16_at(0, u16::MAX, rest)?;
    let (_, rest) = u64_at(0, u64::MAX, rest)?;
    let (_, rest) = u64_at(1, i64::MAX as u64, rest)?;
    let rest = skip_params(rest)?;
    let (events, rest) = u16_at(0, MAX_EVENTS, rest)?;
    let rest = skip_all_events(format, events, rest)?;
    Ok((Layout { format, events }, rest))
}
