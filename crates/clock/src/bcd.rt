//! Numbers below 100 as two decimal digits, one in each nibble of a byte.
ghost use Rattle.std.specs.Prelude.{◌≡◌, ◌<◌};
ghost use Rattle.clock.specs.Bcd.{bcd_of, read_as_bcd};

/// The byte whose two nibbles are the two decimal digits of the number.
pub(crate) fn to_bcd(number: u8) -> u8
    requires { number < 100 }
    ensures { result ≡ bcd_of number }
{
    number / 10 * 16 + number % 10
}

/// The number that the byte's two nibbles spell, if both are decimal digits.
pub(crate) fn from_bcd(byte: u8) -> Option<u8>
    ensures { result ≡ read_as_bcd byte }
{
    let tens = byte / 16;
    let ones = byte % 16;
    if tens > 9 || ones > 9 {
        return None;
    }
    Some(tens * 10 + ones)
}
