//! What a line of a script names.
ghost use Rattle.std.specs.Prelude.{◌≡◌, Some};
ghost use Rattle.hex_text.specs.Short.{held};
ghost use Rattle.script.specs.declared.call.Call.{Call};
ghost use Rattle.script.specs.Lines.{line_of, Says, Read};

use crate::parsing::lettered;
use crate::typing::typed;
use hex_text::{ShortBytes, push_spaced};
use mission::Codes;

/// A call on a recorder.
#[derive(Clone, Copy, PartialEq, Eq, Debug)]
pub enum Call {
    /// A byte arrives on the cable.
    Byte(u8),
    /// A gap on the cable.
    Gap,
    /// A second passes, in which the sensors give these codes.
    Second(Codes),
    /// The button is pressed.
    Press,
    /// The waiting reply is collected.
    Collect,
}

impl Call {
    /// The one call that a line names, or none where it is the line of no call.
    pub fn parse(line: &[u8]) -> Option<Call>
        ensures read { Read line.now result }
        ensures only { (call : Call) → Says line.now call → result ≡ Some call }
    {
        let [letter, rest @ ..] = line else {
            return None;
        };
        lettered(char::from(*letter), rest)
    }

    /// The line that names this call.
    pub fn text(self) -> ShortBytes
        ensures value { held result ≡ line_of self }
        ensures says { Says (held result) self }
    {
        match self {
            Call::Byte(byte) => {
                let mut text = typed(b"B");
                push_spaced(&mut text, byte);
                text
            }
            Call::Gap => typed(b"G"),
            Call::Second(codes) => {
                let mut text = typed(b"S");
                push_spaced(&mut text, codes.temperature);
                push_spaced(&mut text, codes.one);
                push_spaced(&mut text, codes.two);
                push_spaced(&mut text, codes.three);
                text
            }
            Call::Press => typed(b"P"),
            Call::Collect => typed(b"R"),
        }
    }
}
