//! The two memories that the recorder is lent: the journal of events, and the log of sample rows.
#![tactic(auto)]

mod event;
mod journal;
mod log;
mod row;
mod serving;

ghost use Rattle.memory.specs.Figures.{Figures};
ghost use Rattle.std.specs.Prelude.{◌≡◌};

pub use event::{EventKind, JournalEntry};
pub use journal::Journal;
pub use log::Log;
pub use row::Row;
pub use serving::can_serve;

/// The worked figures of the journal and the log.
#[tactic(auto, unfolding(ring::specs::History::ring_of))]
pub fn figures_stand() -> u8
    ensures answer { result ≡ 0 }
    ensures figures { Figures }
{
    0
}
