//! What comes of a line of a script.
ghost use Rattle.std.specs.Prelude.{◌≡◌, ◌++◌, take, codes, decimal};
ghost use Rattle.hex_text.specs.Short.{held};
ghost use Rattle.script.specs.Answers.{answer_of, ShortWire};

use crate::typing::typed;
use hex_text::{ShortBytes, write};
use itoa::Buffer;

/// What a recorder answers to a call, or that the line names none.
#[derive(Clone, Copy)]
pub enum Answer<'a> {
    /// The call was accepted.
    Done,
    /// The call was refused, for the cause with this number.
    Refused(u8),
    /// What a press of the button answers.
    Pressed(bool),
    /// The wire bytes of the reply that was collected.
    Wire(&'a [u8]),
    /// The line names no call.
    Bad,
}

/// A refusal and its number, without leading zeros.
fn refused(number: u8) -> ShortBytes
    ensures { held result ≡ codes "no " ++ decimal number }
{
    let mut text = typed(b"no ");
    text.extend(Buffer::new().format(number).as_bytes());
    text
}

impl Answer<'_> {
    /// The line that gives this answer: with at most 80 wire bytes the whole of it.
    pub fn text(self) -> ShortBytes
        ensures value { held result ≡ take 240 (answer_of self.entry) }
        ensures whole { ShortWire self.entry → held result ≡ answer_of self.entry }
    {
        match self {
            Answer::Done => typed(b"ok"),
            Answer::Refused(number) => refused(number),
            Answer::Pressed(true) => typed(b"1"),
            Answer::Pressed(false) => typed(b"0"),
            Answer::Wire(bytes) => write(bytes),
            Answer::Bad => typed(b"bad"),
        }
    }
}
