//! What the journal notes of an event.
ghost use Rattle.memory.specs.Events.{blank_entry, kind_number};
ghost use Rattle.std.specs.Prelude.{◌≡◌};

/// The kinds of events that the journal notes.
#[derive(Clone, Copy, Debug, Default, PartialEq, Eq)]
pub enum EventKind {
    /// No event: the entry has not been used yet.
    #[default]
    Unused = 0,
    /// A mission was started, by a write or by a press of the button.
    Start = 1,
    /// A mission was stopped by a write.
    Stop = 2,
    /// A mission was stopped by a write of Status 1.
    StatusStop = 3,
    /// The memories were cleared.
    Clear = 4,
}

impl EventKind {
    /// The number that a reader of the journal sees for the kind.
    pub fn number(self) -> u8
        ensures { result ≡ kind_number self }
    {
        self as u8
    }
}

/// One entry of the journal: what happened, the address that was written or 0, and the Total at that moment.
#[derive(Clone, Copy, Debug, Default, PartialEq, Eq)]
pub struct JournalEntry {
    pub kind: EventKind,
    pub address: u8,
    pub total: u32,
}

impl JournalEntry {
    /// An entry that no event has been noted in yet.
    pub fn blank() -> Self
        ensures { result ≡ blank_entry }
    {
        JournalEntry::default()
    }
}
