//! The 3-wire line: the data bytes alone.
ghost use Rattle.line.specs.Wires.{no_bytes};
ghost use Rattle.std.specs.Prelude.{refl};
ghost use Rattle.std.proofs.Common.{lit≤};

use crate::framed::{Framed, Framing};

/// The data bytes are followed by nothing.
pub struct Plain;

impl Framing<0> for Plain {
    ghost checks = { no_bytes };

    ghost whole = { λ xs. refl };

    ghost few = { lit≤ tt };

    fn checks(_bytes: &[u8]) -> [u8; 0] {
        []
    }
}

/// The 3-wire line.
pub type ThreeWire = Framed<Plain, 0>;
