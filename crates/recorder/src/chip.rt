//! The recorder chip: everything of a recorder but its line.
use command::Received;
use counter::Counter;
use memory::Journal;
use mission::{Schedule, Setting};
use record::Record;
use registers::Registers;

/// A mission in progress.
#[derive(Clone, Copy)]
pub struct Mission {
    setting: Setting,
    schedule: Schedule,
}

/// What a chip holds besides the record of sample sets. The journal's entries are in memory that is lent at each call.
#[derive(Drop)]
pub struct Control {
    pub(crate) registers: Registers,
    /// The command so far.
    pub(crate) received: Received,
    /// The sensors are to be read at the next second.
    pub(crate) sensing: bool,
    pub(crate) mission: Option<Mission>,
    /// How many sets were taken since the recorder was made.
    pub(crate) total: Counter,
    pub(crate) journal: Journal,
}

/// What a recorder holds besides its line and the two memories that it is lent.
#[derive(Drop)]
pub struct Chip {
    pub(crate) control: Control,
    pub(crate) record: Record,
}

mod clearing;
mod controlling;
mod mapping;
mod passing;
