//! The log: rows of sample codes, over lent memory.
ghost use Rattle.std.specs.Prelude.{◌≡◌, ℕ, Bool, false, List, [], ◌∷◌, ◌++◌, length, replicate};
ghost use Rattle.memory.specs.Logs.{LogReads, LogStands, Width, full_after, next_row, stored_row, used_by, used_of};
ghost use Rattle.memory.specs.Rows.{bytes_of, width_of};
ghost use Rattle.memory.specs.declared.row.Row.{Row};
ghost use Rattle.ring.specs.Steps.{advanced_all, stored_all};

use crate::row::Row;
use ring::Ring;

/// A roll-over store of the rows' bytes, and whether every place has been written. The rows themselves are in memory
/// that is lent at each call.
#[derive(Clone, Copy)]
pub struct Log {
    ring: Ring,
    /// Without this mark a full log could not be told from an empty one: the place is 0 in both.
    full: bool,
}

impl Log {
    /// How many bytes the log's memory has.
    pub const BYTES: usize = 2048;

    /// A log with no row, as after a clear: over a memory of 2,048 zeros it stands for no row at all.
    pub fn new() -> Self
        ensures place { result.ring.next ≡ 0 }
        ensures full { result.full ≡ false }
        ensures bytes { Self.BYTES ≡ 2048 }
        ensures law { (roll : Bool) (w : ℕ) (memory : List ℕ) → Width w → length memory ≡ 2048 → memory ≡ replicate (length memory) 0
            → LogStands roll w [] memory result.ring.next result.full }
    {
        Log {
            ring: Ring::at(0),
            full: false,
        }
    }

    /// Writes one more row. A full log drops the row with roll-over off, and with it on loses its oldest row.
    pub fn write(&mut self, memory: &mut [u8], row: Row, roll_over: bool)
        ensures memory { memory.new ≡ stored_row roll_over self.old.full memory.old self.old.ring.next row }
        ensures place { self.new.ring.next ≡ next_row roll_over self.old.full (length memory.old) self.old.ring.next row }
        ensures full { self.new.full ≡ full_after self.old.full self.new.ring.next }
        ensures law { (w : ℕ) (rows : List Row) → width_of row ≡ w
            → LogStands roll_over w rows memory.old self.old.ring.next self.old.full
            → LogStands roll_over w (rows ++ row ∷ []) memory.new self.new.ring.next self.new.full }
        ensures reads { (w : ℕ) (rows : List Row) → width_of row ≡ w
            → LogStands roll_over w rows memory.old self.old.ring.next self.old.full
            → LogReads roll_over w (rows ++ row ∷ []) memory.new }
    {
        if roll_over || !self.full {
            put_row(&mut self.ring, memory, row);
            self.full = self.full || self.ring.next() == 0;
        }
    }

    /// How many bytes of the log hold rows.
    pub fn used(&self) -> usize
        ensures value { result ≡ used_of self.now.ring.next self.now.full }
        ensures law { (roll : Bool) (w : ℕ) (rows : List Row) (memory : List ℕ)
            → LogStands roll w rows memory self.now.ring.next self.now.full → result ≡ used_by w (length rows) }
    {
        if self.full {
            Self::BYTES
        } else {
            self.ring.next()
        }
    }
}

/// Puts the bytes of a row into the memory, one after the other.
fn put_row(ring: &mut Ring, memory: &mut [u8], row: Row)
    ensures memory { memory.new ≡ stored_all memory.old ring.old.next (bytes_of row) }
    ensures place { ring.new.next ≡ advanced_all (length memory.old) ring.old.next (bytes_of row) }
{
    match row {
        Row::One(a) => ring.put_all(memory, &[a]),
        Row::Two(a, b) => ring.put_all(memory, &[a, b]),
        Row::Four(a, b, c, d) => ring.put_all(memory, &[a, b, c, d]),
    }
}
