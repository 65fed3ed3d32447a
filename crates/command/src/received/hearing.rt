//! How a command comes together.
ghost use Rattle.std.specs.Prelude.{◌≡◌, [], ◌∷◌, ◌++◌, length, if◌then◌else◌, ◌==◌};
ghost use Rattle.command.specs.Commands.{heard_of, is_part};
ghost use Rattle.command.specs.Receiving.{received};

use super::{COMMAND_BYTES, Received};
use crate::command::{Heard, decode};

impl Received {
    /// Nothing was received.
    pub fn new() -> Received
        ensures { received result ≡ [] }
    {
        Received {
            bytes: [0; COMMAND_BYTES],
            count: 0,
        }
    }

    /// Whether nothing was received since the last whole command.
    pub fn is_empty(&self) -> bool
        ensures { result ≡ (length (received self.now) == 0) }
    {
        self.count == 0
    }

    /// One byte arrives. The beginning of a command is kept; a whole command, and a byte that begins none, is gone.
    pub fn hear(&mut self, byte: u8) -> Heard
        ensures answer { result ≡ heard_of (received self.old ++ byte ∷ []) }
        ensures after { received self.new ≡ (if is_part result then received self.old ++ byte ∷ [] else []) }
    {
        let count = self.count;
        let mut bytes = self.bytes;
        bytes[count] = byte;
        let heard = decode(&bytes[0..count + 1]);
        self.bytes = bytes;
        self.count = match heard {
            Heard::Part => count + 1,
            _ => 0,
        };
        heard
    }

    /// A half-received command is dropped.
    pub fn forget(&mut self)
        ensures { received self.new ≡ [] }
    {
        self.count = 0;
    }
}
