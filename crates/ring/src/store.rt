//! The store itself: the place of the next entry, over memory that is lent at each call.
ghost use Rattle.std.specs.Prelude.{◌≡◌, ℕ, ◌<◌, List, [], ◌∷◌, ◌++◌, length};
ghost use Rattle.ring.specs.History.{Stands};
ghost use Rattle.ring.specs.Steps.{advanced, advanced_all, stored, stored_all};

/// A roll-over store: entry j, counted from 0, goes to place j mod the memory's length. It keeps only the place of the
/// next entry, and is lent its memory at each call.
#[derive(Clone, Copy)]
pub struct Ring {
    next: usize,
}

impl Ring {
    /// A store whose next entry goes to the place `next`. From place 0, a blank memory stands for a history with no
    /// entry: `written_out_stands` says so.
    pub fn at(next: usize) -> Self
        ensures { result.next ≡ next }
    {
        Ring { next }
    }

    /// Stores one more entry. An empty memory and its place are left as they are.
    pub fn put<T: Copy>(&mut self, memory: &mut [T], entry: T)
        ensures memory { memory.new ≡ stored memory.old self.old.next entry }
        ensures next { self.new.next ≡ advanced (length memory.old) self.old.next }
        ensures law { (c : ℕ) (blank : T) (entries : List T) → 0 < c
            → Stands c blank entries memory.old self.old.next
            → Stands c blank (entries ++ entry ∷ []) memory.new self.new.next }
    {
        let length = memory.len();
        if length > 0 {
            let place = self.next % length;
            memory[place] = entry;
            self.next = (place + 1) % length;
        }
    }

    /// Stores several entries, one after the other.
    pub fn put_all<T: Copy>(&mut self, memory: &mut [T], entries: &[T])
        ensures memory { memory.new ≡ stored_all memory.old self.old.next entries.now }
        ensures next { self.new.next ≡ advanced_all (length memory.old) self.old.next entries.now }
        ensures law { (c : ℕ) (blank : T) (earlier : List T) → 0 < c
            → Stands c blank earlier memory.old self.old.next
            → Stands c blank (earlier ++ entries.now) memory.new self.new.next }
    {
        for entry in entries {
            self.put(memory, *entry);
        }
    }

    /// The place of the next entry.
    pub fn next(&self) -> usize
        ensures { result ≡ self.now.next }
    {
        self.next
    }
}
