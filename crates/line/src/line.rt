//! What every line means, and the law that it keeps.
ghost use Rattle.std.specs.Prelude.{◌≡◌, ℕ, ◌<◌, ◌≤◌, List, length, is_ok, if◌then◌else◌, Some, Option as Maybe};
ghost use Rattle.line.specs.Reply.{Reply, Bytes, Sound, emptied, put_answer, put_after, close_after};
ghost use Rattle.line.specs.Collecting.{over, collect_answer, check_answer, check_buffer};
ghost use Rattle.line.specs.declared.line.TheConstants.{WIRE_BYTES as wire_bytes};

use refusal::Refusal;

/// How many data bytes a reply has at most.
pub const REPLY_BYTES: usize = 32;

/// How many wire bytes a reply has at most, on any line.
pub const WIRE_BYTES: usize = 80;

/// A line that carries replies. Of a line that was never opened nothing more is known than that its meaning is sound.
pub trait Line {
    /// What the line means: the data bytes of its reply, in order, and whether the reply waits.
    ghost meaning: { Self → Reply };

    /// The wire bytes of a reply with these data bytes.
    ghost wire: { List ℕ → List ℕ };

    /// The data bytes for which the far end takes these wire bytes, if it accepts them.
    ghost accepted: { List ℕ → Maybe (List ℕ) };

    /// How many wire bytes a reply of so many data bytes has.
    ghost width: { ℕ → ℕ };

    /// Empties the line, whatever it held.
    fn open(&mut self)
        ensures { meaning self.new ≡ emptied };

    /// Adds one data byte; refused where the reply waits or has 32 bytes.
    fn put(&mut self, byte: u8) -> Result<(), Refusal>
        ensures answer { result ≡ put_answer (meaning self.old) }
        ensures after { meaning self.new ≡ put_after (meaning self.old) byte };

    /// Makes the bytes that were put wait; with none, nothing changes.
    fn close(&mut self)
        ensures { meaning self.new ≡ close_after (meaning self.old) };

    /// Whether a reply waits.
    fn waits(&self) -> bool
        ensures { result ≡ (meaning self.now).waits };

    /// How many wire bytes a reply of so many data bytes has.
    fn wire_len(count: u8) -> usize
        ensures { result ≡ width count };

    /// Writes the wire bytes of the reply that waits to the buffer's front, and empties the line.
    fn collect(&mut self, buffer: &mut [u8]) -> Result<usize, Refusal>
        ensures answer { result ≡ collect_answer (wire (meaning self.old).bytes) (meaning self.old) (length buffer.old) }
        ensures after { meaning self.new ≡ (if is_ok result then emptied else meaning self.old) }
        ensures buffer { buffer.new ≡ (if is_ok result then over (wire (meaning self.old).bytes) buffer.old else buffer.old) };

    /// The check at the far end: writes the data of accepted wire bytes to the buffer's front.
    fn check(sent: &[u8], buffer: &mut [u8]) -> Result<usize, Refusal>
        ensures answer { result ≡ check_answer (accepted sent.now) (length buffer.old) }
        ensures buffer { buffer.new ≡ (if is_ok result then check_buffer (accepted sent.now) buffer.old else buffer.old) };

    ghost sound: { (line : Self) → Sound (meaning line) };

    /// The wire bytes of a reply are accepted, and give exactly its data.
    ghost carried: { (xs : List ℕ) → Bytes xs → 0 < length xs → length xs ≤ 32 → accepted (wire xs) ≡ Some xs };

    ghost wide: { (xs : List ℕ) → length (wire xs) ≡ width (length xs) };

    /// No reply has more than `WIRE_BYTES` wire bytes.
    ghost narrow: { (n : ℕ) → n ≤ 32 → width n ≤ wire_bytes };
}
