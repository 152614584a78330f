//! Hex digits.
ghost use Rattle.std.specs.Prelude.{◌≡◌, ◌*◌, ◌<◌, length, slice_index};
ghost use Rattle.hex.specs.Hex.{encode_lower, lower_digits};

fn hex_digit(half: u8) -> u8
    requires { half < 16 }
    ensures { result ≡ slice_index lower_digits half }
{
    if half < 10 {
        b'0' + half
    } else {
        b'a' - 10 + half
    }
}

/// Writes each byte as two hex digits in lower case. A digit is computed and not looked up, so the
/// compiler makes the loop one of 16 bytes a step.
pub fn encode_hex(bytes: &[u8], digits: &mut [u8])
    requires { length digits.old ≡ 2 * length bytes.now }
    ensures { digits.new ≡ encode_lower bytes.now }
{
    'bytes: for i in 0..bytes.len() {
        digits[2 * i] = hex_digit(bytes[i] / 16);
        digits[2 * i + 1] = hex_digit(bytes[i] % 16);
    }
}
