//! A short list of bytes, held by value.
ghost use Rattle.std.specs.Prelude.{◌≤◌, length};

use arrayvec::ArrayVec;

/// How many bytes are held at most: the text of 80 bytes has 239.
pub const CAPACITY: usize = 240;

/// The first bytes of those that were pushed, as many as there is room for.
#[derive(Drop)]
pub struct ShortBytes {
    bytes: ArrayVec<u8, CAPACITY>,
    ghost few: { length bytes.items ≤ 240 },
}

impl ShortBytes {
    ghost use Rattle.std.specs.Prelude.{◌≡◌, [], ◌∷◌, ◌++◌, take};
    ghost use Rattle.hex_text.specs.Short.{held};

    /// No bytes.
    pub fn new() -> ShortBytes
        ensures { held result ≡ [] }
    {
        ShortBytes {
            bytes: ArrayVec::new(),
        }
    }

    /// Adds a byte at the end, if there is room.
    pub fn push(&mut self, byte: u8)
        ensures { held self.new ≡ take 240 (held self.old ++ byte ∷ []) }
    {
        let _ = self.bytes.try_push(byte);
    }

    /// Adds bytes at the end, as many as there is room for.
    pub fn extend(&mut self, bytes: &[u8])
        ensures { held self.new ≡ take 240 (held self.old ++ bytes.now) }
    {
        for byte in bytes {
            self.push(*byte);
        }
    }

    /// The bytes.
    pub fn as_slice(&self) -> &[u8]
        ensures { result.now ≡ held self.now }
    {
        &self.bytes
    }
}
