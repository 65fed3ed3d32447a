//! Reads of a bit, and what a bit adds to a byte.
ghost use Rattle.std.specs.Prelude.{◌≡◌, ◌≤◌};
ghost use Rattle.bits.specs.Bits.{bit, weight};

/// Whether bit i of a byte is 1; bit 0 is the lowest, and from bit 8 on each is 0.
pub fn is_set(byte: u8, i: u32) -> bool
    ensures { result ≡ bit i byte }
{
    i < u8::BITS && (byte >> i) & 1 == 1
}

/// The weight of a bit that is on, else 0.
pub fn weight(on: bool, n: u8) -> u8
    ensures value { result ≡ weight on n }
    ensures most { result ≤ n }
{
    if on { n } else { 0 }
}
