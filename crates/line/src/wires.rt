//! What each of the two lines sends, and what its far end takes.
ghost use Rattle.std.specs.Prelude.{◌≡◌};
ghost use Rattle.line.specs.Wires.{framed, from_framed, from_plain, plain};

use crate::asynchronous::Asynchronous;
use crate::line::Line;
use crate::three_wire::ThreeWire;

/// The 3-wire line carries the data alone, and the asynchronous line the data and then their CRC.
pub fn wires_stand() -> u8
    ensures answer { result ≡ 0 }
    ensures three_wire { (⟦<ThreeWire as Line>⟧.wire ≡ plain) × (⟦<ThreeWire as Line>⟧.accepted ≡ from_plain) }
    ensures asynchronous { (⟦<Asynchronous as Line>⟧.wire ≡ framed) × (⟦<Asynchronous as Line>⟧.accepted ≡ from_framed) }
{
    0
}
