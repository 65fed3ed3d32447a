//! The journal: the last 16 events, over lent memory.
ghost use Rattle.memory.specs.Events.{JournalStands, blank_entry};
ghost use Rattle.memory.specs.declared.event.JournalEntry.{JournalEntry};
ghost use Rattle.ring.specs.History.{Stands};
ghost use Rattle.ring.specs.Steps.{advanced, stored};
ghost use Rattle.std.specs.Prelude.{◌≡◌, List, [], ◌∷◌, ◌++◌, length, replicate};

use crate::event::JournalEntry;
use ring::Ring;

/// A roll-over store of entries, which are themselves in memory that is lent at each call.
#[derive(Clone, Copy)]
pub struct Journal {
    ring: Ring,
}

impl Journal {
    /// How many entries the journal's memory has.
    pub const ENTRIES: usize = 16;

    /// A journal with no event: over a memory of 16 blank entries it stands for the empty history.
    #[tactic(auto, using(crate::proofs::Events::no_event))]
    pub fn new() -> Self
        ensures place { result.ring.next ≡ 0 }
        ensures entries { Self.ENTRIES ≡ 16 }
        ensures law { (memory : List JournalEntry) → length memory ≡ 16 → memory ≡ replicate (length memory) blank_entry
            → JournalStands [] memory result.ring.next }
    {
        Journal { ring: Ring::at(0) }
    }

    /// Notes one more event, in place of the oldest once all entries are used.
    pub fn note(&mut self, memory: &mut [JournalEntry], entry: JournalEntry)
        ensures memory { memory.new ≡ stored memory.old self.old.ring.next entry }
        ensures place { self.new.ring.next ≡ advanced (length memory.old) self.old.ring.next }
        ensures law { (events : List JournalEntry) → JournalStands events memory.old self.old.ring.next
            → JournalStands (events ++ entry ∷ []) memory.new self.new.ring.next }
        ensures reads { (events : List JournalEntry) → JournalStands events memory.old self.old.ring.next
            → Stands 16 blank_entry (events ++ entry ∷ []) memory.new self.new.ring.next }
    {
        self.ring.put(memory, entry);
    }
}
