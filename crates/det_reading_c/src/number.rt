//! Numbers at an offset, read from any bytes. A number that isn't there is 0.
ghost use Rattle.std.specs.Prelude.{◌≡◌, drop};
ghost use Rattle.det_reading_c.specs.Numbers.{IsNumber, IsNumberAt};

/// The bytes from an offset on; none from beyond the end.
pub(crate) fn rest_from(bytes: &[u8], at: usize) -> &[u8]
    ensures { result.now ≡ drop at bytes.now }
{
    if at > bytes.len() {
        return bytes.split_at(bytes.len()).1;
    }
    bytes.split_at(at).1
}

fn first_u8(bytes: &[u8]) -> u8
    ensures { IsNumber 1 result bytes.now }
{
    if bytes.is_empty() {
        return 0;
    }
    bytes[0]
}

fn first_u32(bytes: &[u8]) -> u32
    ensures { IsNumber 4 result bytes.now }
{
    if bytes.len() < 4 {
        return 0;
    }
    u32::from_be_bytes([bytes[0], bytes[1], bytes[2], bytes[3]])
}

fn first_u16(bytes: &[u8]) -> u16
    ensures { IsNumber 2 result bytes.now }
{
    if bytes.len() < 2 {
        return 0;
    }
    u16::from_be_bytes([bytes[0], bytes[1]])
}

fn first_u64(bytes: &[u8]) -> u64
    ensures { IsNumber 8 result bytes.now }
{
    if bytes.len() < 8 {
        return 0;
    }
    u64::from_be_bytes([
        bytes[0], bytes[1], bytes[2], bytes[3], bytes[4], bytes[5], bytes[6], bytes[7],
    ])
}

/// The byte at an offset.
pub(crate) fn u8_from(bytes: &[u8], at: usize) -> u8
    ensures { IsNumberAt 1 result at bytes.now }
{
    first_u8(rest_from(bytes, at))
}

/// The four bytes at an offset, as a number.
pub(crate) fn u32_from(bytes: &[u8], at: usize) -> u32
    ensures { IsNumberAt 4 result at bytes.now }
{
    first_u32(rest_from(bytes, at))
}

/// The two bytes at an offset, as a number.
pub(crate) fn u16_from(bytes: &[u8], at: usize) -> u16
    ensures { IsNumberAt 2 result at bytes.now }
{
    first_u16(rest_from(bytes, at))
}

/// The eight bytes at an offset, as a number.
pub(crate) fn u64_from(bytes: &[u8], at: usize) -> u64
    ensures { IsNumberAt 8 result at bytes.now }
{
    first_u64(rest_from(bytes, at))
}
