//! The asynchronous line: the data bytes, and then their CRC, the low byte first.
ghost use Rattle.line.specs.Wires.{crc_bytes};
ghost use Rattle.std.specs.Prelude.{refl};
ghost use Rattle.std.proofs.Common.{lit≤};

use crate::framed::{Framed, Framing};
use crc16::crc16;

/// How many bytes a CRC takes on the wire.
const CRC_BYTES: usize = 2;

/// The data bytes are followed by their CRC.
pub struct Crc;

impl Framing<CRC_BYTES> for Crc {
    ghost checks = { crc_bytes };

    ghost whole = { λ xs. refl };

    ghost few = { lit≤ tt };

    fn checks(bytes: &[u8]) -> [u8; CRC_BYTES] {
        crc16(bytes).to_le_bytes()
    }
}

/// The asynchronous line.
pub type Asynchronous = Framed<Crc, CRC_BYTES>;
