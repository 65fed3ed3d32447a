//! Making, clears and sensor reads.
ghost use Rattle.std.specs.Prelude.{◌≡◌, ℕ, List, is_some, if◌then◌else◌, Ok, Err};
ghost use Rattle.memory.specs.declared.event.JournalEntry.{JournalEntry};
ghost use Rattle.recorder.specs.Contents.{contents, made_over};
ghost use Rattle.recorder.specs.Commands.{sensing_from_now};
ghost use Rattle.recorder.specs.Events.{cleared_all};

use crate::chip::{Chip, Control};
use command::Received;
use counter::Counter;
use memory::{EventKind, Journal, JournalEntry};
use record::Record;
use refusal::Refusal;
use registers::{Registers, SERIAL_BYTES};

impl Chip {
    /// Empties the record and what goes with it. A mission in progress stops, and the journal notes one event.
    pub(crate) fn clear(&mut self, log: &mut [u8], journal: &mut [JournalEntry])
        ensures { contents self.new log.new journal.new ≡ cleared_all (contents self.old log.old journal.old) }
    {
        self.record.clear(log);
        self.control.registers.clear();
        self.control.mission = None;
        self.control.note(journal, EventKind::Clear, 0);
    }

    /// Clears if that was enabled.
    pub(crate) fn clear_if(
        &mut self,
        log: &mut [u8],
        journal: &mut [JournalEntry],
        enabled: bool,
    ) -> Result<(), Refusal>
        ensures answer { result ≡ (if enabled then Ok tt else Err Refusal.ClearDisabled) }
        ensures after { contents self.new log.new journal.new ≡ (if enabled then cleared_all (contents self.old log.old journal.old) else contents self.old log.old journal.old) }
    {
        if !enabled {
            return Err(Refusal::ClearDisabled);
        }
        self.clear(log, journal);
        Ok(())
    }

    /// The sensors are to be read at the next second, and no data is ready until then; refused during a mission.
    pub(crate) fn read_sensors(&mut self) -> Result<(), Refusal>
        ensures answer { result ≡ (if is_some self.old.control.mission then Err Refusal.InMission else Ok tt) }
        ensures after { (log : List ℕ) (journal : List JournalEntry) → contents self.new log journal ≡ (if is_some self.old.control.mission then contents self.old log journal else sensing_from_now (contents self.old log journal)) }
    {
        if self.control.mission.is_some() {
            return Err(Refusal::InMission);
        }
        self.control.registers.set_ready(false);
        self.control.sensing = true;
        Ok(())
    }

    /// A chip as it is made, with nothing recorded.
    pub(crate) fn new(serial: [u8; SERIAL_BYTES]) -> Chip
        ensures { (log : List ℕ) (journal : List JournalEntry) → contents result log journal ≡ made_over serial log journal }
    {
        let control = Control {
            registers: Registers::new(serial),
            received: Received::new(),
            sensing: false,
            mission: None,
            total: Counter::new(),
            journal: Journal::new(),
        };
        Chip {
            control,
            record: Record::new(),
        }
    }
}
