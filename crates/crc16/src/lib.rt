//! CRC-16: polynomial x^16 + x^15 + x^2 + 1, start 0, least significant bit first, not inverted.
#![tactic(auto)]

mod table;

ghost use Rattle.std.specs.Prelude.{◌≡◌, ◌/◌, ◌%◌, [], ◌∷◌, ◌++◌};
ghost use Rattle.crc16.specs.Division.{divided, low_bits, remainder_of, crc_of};
ghost use Rattle.crc16.specs.Figures.{check_values};

use table::REMAINDERS;

/// What the division leaves of one byte.
fn remainder(byte: u8) -> u16
    ensures { result ≡ remainder_of byte }
{
    REMAINDERS[byte as usize]
}

/// Eight bits more of the division, by one look into the table.
fn step(crc: u16, byte: u8) -> u16
    ensures { result ≡ divided crc (low_bits 8 byte) }
{
    (crc >> 8) ^ remainder(((crc ^ byte as u16) & 0xFF) as u8)
}

/// The CRC of a message. A message followed by its CRC, the low byte first, has the CRC 0.
pub fn crc16(message: &[u8]) -> u16
    ensures value { result ≡ crc_of message.now }
    ensures residue { crc_of (message.now ++ (result % 256 ∷ (result / 256 ∷ []))) ≡ 0 }
{
    message.iter().fold(0, |crc, byte| step(crc, *byte))
}

/// The CRC of the byte 01h, of the byte FFh, and of the ASCII digits 1 to 9.
pub fn check_values() -> [u16; 3]
    ensures { result ≡ check_values }
{
    [0xC0C1, 0x4040, 0xBB3D]
}
