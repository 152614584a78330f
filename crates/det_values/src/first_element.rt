//! Reads the first element from bytes in the layout of a format Two record.
ghost use Rattle.std.specs.Prelude.{◌≡◌, ◌++◌, ◌<◌, ◌≤◌, ◌^◌, length, IfSome, IfNone};
ghost use Rattle.det_values.specs.Spelling.{spelled_u16, spelled_u32, AreBytes, an_element};
ghost use Rattle.det_values.specs.Spelling.{BeginsWith, BeginsWithNone};

fn split_element_length(bytes: &[u8]) -> Option<(usize, &[u8])>
    ensures some { IfSome result (λ x. bytes.now ≡ spelled_u16 x.0 ++ x.1.now) }
    ensures small { IfSome result (λ x. x.0 < 2 ^ 16) }
    ensures none { IfNone result (length bytes.now < 2) }
{
    match bytes {
        [high, low, rest @ ..] => Some((u16::from_be_bytes([*high, *low]) as usize, rest)),
        _ => None,
    }
}

fn split_element_draws(bytes: &[u8]) -> Option<(u32, &[u8])>
    ensures some { IfSome result (λ x. bytes.now ≡ spelled_u32 x.0 ++ x.1.now) }
    ensures small { IfSome result (λ x. x.0 < 2 ^ 32) }
    ensures none { IfNone result (length bytes.now < 4) }
{
    match bytes {
        [a, b, c, d, rest @ ..] => Some((u32::from_be_bytes([*a, *b, *c, *d]), rest)),
        _ => None,
    }
}

fn split_element_bytes(bytes: &[u8], len: usize) -> (&[u8], &[u8])
    requires { len ≤ length bytes.now }
    ensures parts { bytes.now ≡ result.0.now ++ result.1.now }
    ensures first { length result.0.now ≡ len }
    ensures bytes { AreBytes result.0.now }
{
    bytes.split_at(len)
}

/// The bytes and the draws of the first element, and the bytes after it. None if the input doesn't
/// begin with an element.
pub fn split_first_element(bytes: &[u8]) -> Option<(&[u8], u32, &[u8])>
    ensures some { IfSome result (λ x. BeginsWith (an_element x.0.now x.1) x.2.now bytes.now) }
    ensures none { IfNone result (BeginsWithNone bytes.now) }
{
    let (len, rest) = match split_element_length(bytes) {
        Some(read) => read,
        None => return None,
    };
    if len > 64 {
        return None;
    }
    if len > rest.len() {
        return None;
    }
    let (shown, rest) = split_element_bytes(rest, len);
    match split_element_draws(rest) {
        Some((draws, behind)) => Some((shown, draws, behind)),
        None => None,
    }
}
