//! Numbers within limits. A number that is there as a whole and within them is read at once.
//! Otherwise its bytes are checked one by one, so it is refused at its first wrong byte.
ghost use Rattle.std.specs.Prelude.{◌≡◌, ◌≤◌, ◌<◌, ◌^◌, IfOk};
ghost use Rattle.record_grammar.specs.Numbers.{lowest, highest, can_be, number_from, number};
ghost use Rattle.record_grammar.specs.Numbers.{IsWithin};
ghost use Rattle.record_grammar.specs.Grammar.{signed_at, sample_value_at};
ghost use Rattle.record_view.specs.Gives.{Gives};
ghost use Rattle.det_values.specs.Limits.{IsSampleValue};

use crate::stop::Stop;
use record_grammar::{Limits, Reason};

/// The greatest magnitude of a sample's value.
const MAX_VALUE: u64 = 1_000_000_000_000;

/// The least and the greatest number that begin with the bytes of `value` and have `left` more
/// bytes.
fn ends(left: usize, value: u64) -> (u64, u64)
    requires { highest left value < 2 ^ 64 }
    ensures low { result.0 ≡ lowest left value }
    ensures high { result.1 ≡ highest left value }
{
    let mut low = value;
    let mut high = value;
    for _ in 0..left {
        low = low * 256;
        high = high * 256 + 255;
    }
    (low, high)
}

/// Whether some number within the limits begins with the bytes of `value` and has `left` more
/// bytes.
fn may_begin(limits: Limits, left: usize, value: u64) -> bool
    requires { highest left value < 2 ^ 64 }
    ensures { result ≡ can_be limits left value }
{
    let (low, high) = ends(left, value);
    match limits {
        Limits::Between { least, most } => least <= high && low <= most,
        Limits::Around { most } => low <= most || u64::MAX - high < most,
    }
}

/// A number of `width` bytes, read byte by byte. It is refused at the first byte after which no
/// number within the limits is left.
fn number_at(width: usize, limits: Limits, bytes: &[u8]) -> Result<(u64, &[u8]), Stop>
    requires { width ≤ 8 }
    ensures gives { Gives (λ x. (x.0, x.1.now)) result (number_from limits width 0 bytes.now) }
    ensures within { IfOk result (λ x. 0 < width → IsWithin limits x.0) }
{
    let mut value: u64 = 0;
    for read in 0..width {
        if read >= bytes.len() {
            return Err(Stop::More);
        }
        value = value * 256 + bytes[read] as u64;
        if !may_begin(limits, width - 1 - read, value) {
            return Err(Stop::Bad {
                reason: Reason::Range,
                left: bytes.len() - read,
            });
        }
    }
    Ok((value, &bytes[width..]))
}

/// A u8 from `least` to `most`, and the rest.
#[tactic(auto, unfolding(record_grammar::specs::Numbers::number_from, record_grammar::specs::Numbers::lowest, record_grammar::specs::Numbers::highest))]
pub fn u8_at(least: u8, most: u8, bytes: &[u8]) -> Result<(u8, &[u8]), Stop>
    ensures gives { Gives (λ x. (x.0, x.1.now)) result (number 1 least most bytes.now) }
    ensures within { IfOk result (λ x. (least ≤ x.0) × (x.0 ≤ most)) }
{
    match bytes {
        [] => Err(Stop::More),
        [byte, rest @ ..] => {
            if least <= *byte && *byte <= most {
                Ok((*byte, rest))
            } else {
                Err(Stop::Bad {
                    reason: Reason::Range,
                    left: bytes.len(),
                })
            }
        }
    }
}

/// A u16 from `least` to `most`, and the rest.
pub fn u16_at(least: u16, most: u16, bytes: &[u8]) -> Result<(u16, &[u8]), Stop>
    ensures gives { Gives (λ x. (x.0, x.1.now)) result (number 2 least most bytes.now) }
    ensures within { IfOk result (λ x. (least ≤ x.0) × (x.0 ≤ most)) }
{
    if let [a, b, rest @ ..] = bytes {
        let n = u16::from_be_bytes([*a, *b]);
        if least <= n && n <= most {
            return Ok((n, rest));
        }
    }
    let limits = Limits::Between {
        least: least as u64,
        most: most as u64,
    };
    let (n, rest) = number_at(2, limits, bytes)?;
    Ok((n as u16, rest))
}

/// A u32 from `least` to `most`, and the rest.
pub fn u32_at(least: u32, most: u32, bytes: &[u8]) -> Result<(u32, &[u8]), Stop>
    ensures gives { Gives (λ x. (x.0, x.1.now)) result (number 4 least most bytes.now) }
    ensures within { IfOk result (λ x. (least ≤ x.0) × (x.0 ≤ most)) }
{
    if let [a, b, c, d, rest @ ..] = bytes {
        let n = u32::from_be_bytes([*a, *b, *c, *d]);
        if least <= n && n <= most {
            return Ok((n, rest));
        }
    }
    let limits = Limits::Between {
        least: least as u64,
        most: most as u64,
    };
    let (n, rest) = number_at(4, limits, bytes)?;
    Ok((n as u32, rest))
}

/// A number of eight bytes within the limits, and the rest.
fn wide_at(limits: Limits, bytes: &[u8]) -> Result<(u64, &[u8]), Stop>
    ensures gives { Gives (λ x. (x.0, x.1.now)) result (number_from limits 8 0 bytes.now) }
    ensures within { IfOk result (λ x. IsWithin limits x.0) }
{
    if let [a, b, c, d, e, f, g, h, rest @ ..] = bytes {
        let n = u64::from_be_bytes([*a, *b, *c, *d, *e, *f, *g, *h]);
        if may_begin(limits, 0, n) {
            return Ok((n, rest));
        }
    }
    number_at(8, limits, bytes)
}

/// A u64 from `least` to `most`, and the rest.
pub fn u64_at(least: u64, most: u64, bytes: &[u8]) -> Result<(u64, &[u8]), Stop>
    ensures gives { Gives (λ x. (x.0, x.1.now)) result (number 8 least most bytes.now) }
    ensures within { IfOk result (λ x. (least ≤ x.0) × (x.0 ≤ most)) }
{
    wide_at(Limits::Between { least, most }, bytes)
}

/// Any i64, and the rest.
#[tactic(auto, unfolding(record_grammar::specs::Grammar::signed_at))]
pub fn i64_at(bytes: &[u8]) -> Result<(i64, &[u8]), Stop>
    ensures { Gives (λ x. (x.0, x.1.now)) result (signed_at bytes.now) }
{
    let (n, rest) = u64_at(0, u64::MAX, bytes)?;
    Ok((n.cast_signed(), rest))
}

/// An i64 from -10^12 to 10^12, and the rest.
#[tactic(auto, unfolding(record_grammar::specs::Grammar::sample_value_at))]
pub fn sample_value(bytes: &[u8]) -> Result<(i64, &[u8]), Stop>
    ensures gives { Gives (λ x. (x.0, x.1.now)) result (sample_value_at bytes.now) }
    ensures within { IfOk result (λ x. IsSampleValue x.0) }
{
    let (n, rest) = wide_at(Limits::Around { most: MAX_VALUE }, bytes)?;
    Ok((n.cast_signed(), rest))
}
