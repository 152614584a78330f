//! Decimal numbers: no leading zero, no plus sign, no `-0`.
ghost use Rattle.std.specs.Prelude.{◌≡◌, ◌≤◌, ◌<◌, ◌^◌, ◌-◌, ◌⊎◌, length, IfSome, IfNone};
ghost use Rattle.det_values.specs.Limits.{IsSampleValue};
ghost use Rattle.stimulus.specs.Numbers.{number, number_after, below, value_of};

/// One more than the greatest magnitude of a sample's value.
const MAGNITUDES: u128 = 1_000_000_000_001;

/// The number that the bytes spell, if it is below the limit.
#[tactic(auto, using(crate::proofs::Numbers::number_empty, crate::proofs::Numbers::number_one, crate::proofs::Numbers::number_none, crate::proofs::Numbers::number_long))]
pub fn number_below(limit: u128, bytes: &[u8]) -> Option<u64>
    requires { limit ≤ 2 ^ 64 }
    ensures { result ≡ below limit (number bytes.now) }
{
    match bytes.len() {
        0 => None,
        1 => digits_below(limit, bytes),
        _ if bytes[0] == b'0' => None,
        _ => digits_below(limit, bytes),
    }
}

/// A number of this many digits always fits 64 bits.
const FEW_DIGITS: usize = 19;

/// The number that one or more digits spell, if it is below the limit.
fn digits_below(limit: u128, bytes: &[u8]) -> Option<u64>
    requires limit { limit ≤ 2 ^ 64 }
    requires some { 0 < length bytes.now }
    ensures { result ≡ below limit (number_after 0 bytes.now) }
{
    if bytes.len() > FEW_DIGITS {
        return many_digits_below(limit, bytes);
    }
    match few_digits(bytes) {
        Some(value) if u128::from(value) < limit => Some(value),
        _ => None,
    }
}

/// The value of a digit. None for any other byte.
fn digit_value(byte: u8) -> Option<u8>
    ensures some { IfSome result (λ value. (48 ≤ byte) × (byte ≤ 57) × (value ≡ byte - 48)) }
    ensures none { IfNone result ((byte < 48) ⊎ (57 < byte)) }
{
    match byte {
        b'0'..=b'9' => Some(byte - b'0'),
        _ => None,
    }
}

/// The number that at most 19 digits spell.
fn few_digits(bytes: &[u8]) -> Option<u64>
    requires { length bytes.now ≤ 19 }
    ensures { result ≡ number_after 0 bytes.now }
{
    let mut value: u64 = 0;
    for read in 0..bytes.len() {
        let digit = digit_value(bytes[read])?;
        value = value * 10 + digit as u64;
    }
    Some(value)
}

/// The same as `digits_below`, for any number of digits.
fn many_digits_below(limit: u128, bytes: &[u8]) -> Option<u64>
    requires limit { limit ≤ 2 ^ 64 }
    requires some { 0 < length bytes.now }
    ensures { result ≡ below limit (number_after 0 bytes.now) }
{
    let mut value: u64 = 0;
    for read in 0..bytes.len() {
        let digit = digit_value(bytes[read])?;
        let next = value as u128 * 10 + digit as u128;
        if next >= limit {
            return None;
        }
        value = next as u64;
    }
    Some(value)
}

/// The value of a sample, from -10^12 to 10^12.
#[tactic(auto, unfolding(crate::specs::Numbers::value_of))]
pub fn sample_value(bytes: &[u8]) -> Option<i64>
    ensures value { result ≡ value_of bytes.now }
    ensures within { IfSome result (λ value. IsSampleValue value) }
{
    match bytes.strip_prefix(b"-".as_slice()) {
        Some(digits) => match number_below(MAGNITUDES, digits) {
            None | Some(0) => None,
            Some(magnitude) => Some(-(magnitude as i64)),
        },
        None => match number_below(MAGNITUDES, bytes) {
            None => None,
            Some(magnitude) => Some(magnitude as i64),
        },
    }
}
