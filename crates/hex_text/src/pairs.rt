//! One byte and its two digits.
ghost use Rattle.std.specs.Prelude.{◌≡◌, ◌<◌, Some};
ghost use Rattle.hex_text.specs.Digits.{digit_of, byte_of, digit_char, high_digit, low_digit, two_digits};

/// The value of an upper-case hexadecimal digit.
pub fn digit(c: u8) -> Option<u8>
    ensures { result ≡ digit_of c }
{
    match c {
        b'0'..=b'9' => Some(c - b'0'),
        b'A'..=b'F' => Some(c - b'A' + 10),
        _ => None,
    }
}

/// The byte that two digits make.
pub fn byte(high: u8, low: u8) -> Option<u8>
    ensures { result ≡ byte_of high low }
{
    let high = digit(high)?;
    let low = digit(low)?;
    Some(16 * high + low)
}

/// The digit of a value below 16.
fn digit_char(value: u8) -> u8
    requires { value < 16 }
    ensures { result ≡ digit_char value }
{
    if value < 10 {
        b'0' + value
    } else {
        b'A' + (value - 10)
    }
}

/// The two digits of a byte, the high one first.
pub fn digits(byte: u8) -> [u8; 2]
    ensures value { result ≡ two_digits byte }
    ensures back { byte_of (high_digit byte) (low_digit byte) ≡ Some byte }
{
    [digit_char(byte / 16), digit_char(byte % 16)]
}
