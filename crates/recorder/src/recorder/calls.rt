//! The calls on a recorder. Each that takes memories is lent a log of 2,048 bytes and a journal of 16 entries, and refuses others.
ghost use Rattle.std.specs.Prelude.{◌≡◌, ℕ, Bool, true, false, List, length, is_ok, if◌then◌else◌, Ok, Err, MatchResult};
ghost use Rattle.line.specs.Collecting.{collect_answer, over};
ghost use Rattle.line.specs.Reply.{emptied};
ghost use Rattle.memory.specs.Serving.{serves};
ghost use Rattle.memory.specs.declared.event.JournalEntry.{JournalEntry};
ghost use Rattle.recorder.specs.Seen.{seen};
ghost use Rattle.recorder.specs.State.{byte_answer, byte_after, gap_after, heard_after, heard_answer, heard_by, made_state, press_answer, press_after, second_answer, second_after, state};

use crate::chip::Chip;
use crate::recorder::{NotMade, Recorder};
use command::Heard;
use histogram::TemperatureCode;
use line::Line;
use memory::{JournalEntry, can_serve};
use mission::Codes;
use refusal::Refusal;
use registers::SERIAL_BYTES;

/// Refuses memories of which one has a wrong length.
fn judge_memories(log: &[u8], journal: &[JournalEntry]) -> Result<(), Refusal>
    ensures { result ≡ (if serves (length log.now) (length journal.now) then Ok tt else Err Refusal.MemoryLength) }
{
    if can_serve(log.len(), journal.len()) {
        Ok(())
    } else {
        Err(Refusal::MemoryLength)
    }
}

impl<L: Line> Recorder<L> {
    /// A recorder with this serial number, over the line. Both memories are emptied, and the line is opened.
    pub fn make(
        log: &mut [u8],
        journal: &mut [JournalEntry],
        mut line: L,
        serial: [u8; SERIAL_BYTES],
    ) -> Result<Recorder<L>, NotMade<L>>
        ensures { MatchResult result (λ k. (serves (length log.old) (length journal.old) ≡ true) × (seen L.meaning k log.new journal.new ≡ made_state serial)) (λ n. (serves (length log.old) (length journal.old) ≡ false) × (n.refusal ≡ Refusal.MemoryLength) × (n.line ≡ line) × (log.new ≡ log.old) × (journal.new ≡ journal.old)) }
    {
        if !can_serve(log.len(), journal.len()) {
            let refusal = Refusal::MemoryLength;
            return Err(NotMade { refusal, line });
        }
        log.fill(0);
        journal.fill(JournalEntry::blank());
        line.open();
        let chip = Chip::new(serial);
        Ok(Recorder { line, chip })
    }

    /// A byte arrives on the cable.
    pub fn byte(
        &mut self,
        log: &mut [u8],
        journal: &mut [JournalEntry],
        byte: u8,
    ) -> Result<(), Refusal>
        ensures answer { result ≡ byte_answer (seen L.meaning self.old log.old journal.old) byte }
        ensures after { seen L.meaning self.new log.new journal.new ≡ byte_after (seen L.meaning self.old log.old journal.old) byte }
        ensures kept { serves (length log.old) (length journal.old) ≡ false → (self.new ≡ self.old) × (log.new ≡ log.old) × (journal.new ≡ journal.old) }
    {
        judge_memories(log, journal)?;
        if self.line.waits() {
            return Err(Refusal::ReplyWaits);
        }
        self.hear(log, journal, byte)
    }

    /// A gap on the cable drops a half-received command.
    pub fn gap(&mut self)
        ensures { (log : List ℕ) (journal : List JournalEntry) → seen L.meaning self.new log journal ≡ gap_after (seen L.meaning self.old log journal) }
    {
        self.chip.control.received.forget();
    }

    /// A second passes, with the codes of the sensors.
    pub fn second(
        &mut self,
        log: &mut [u8],
        journal: &mut [JournalEntry],
        codes: Codes,
    ) -> Result<(), Refusal>
        ensures answer { result ≡ second_answer (seen L.meaning self.old log.old journal.old) codes }
        ensures after { seen L.meaning self.new log.new journal.new ≡ second_after (seen L.meaning self.old log.old journal.old) codes }
        ensures kept { serves (length log.old) (length journal.old) ≡ false → (self.new ≡ self.old) × (log.new ≡ log.old) × (journal.new ≡ journal.old) }
    {
        judge_memories(log, journal)?;
        let code = codes.temperature;
        if code > TemperatureCode::TOP {
            return Err(Refusal::BadTemperature { code });
        }
        self.chip.pass(log, codes);
        Ok(())
    }

    /// The button is pressed: whether that started a mission.
    pub fn press(&mut self, log: &mut [u8], journal: &mut [JournalEntry]) -> Result<bool, Refusal>
        ensures answer { result ≡ press_answer (seen L.meaning self.old log.old journal.old) }
        ensures after { seen L.meaning self.new log.new journal.new ≡ press_after (seen L.meaning self.old log.old journal.old) }
        ensures kept { serves (length log.old) (length journal.old) ≡ false → (self.new ≡ self.old) × (log.new ≡ log.old) × (journal.new ≡ journal.old) }
    {
        judge_memories(log, journal)?;
        Ok(self.chip.control.press(journal))
    }

    /// Collects the reply that waits: writes its wire bytes to the buffer's front, and answers how many there are.
    pub fn collect(&mut self, buffer: &mut [u8]) -> Result<usize, Refusal>
        ensures answer { result ≡ collect_answer (L.wire (L.meaning self.old.line).bytes) (L.meaning self.old.line) (length buffer.old) }
        ensures buffer { buffer.new ≡ (if is_ok result then over (L.wire (L.meaning self.old.line).bytes) buffer.old else buffer.old) }
        ensures after { (log : List ℕ) (journal : List JournalEntry) → seen L.meaning self.new log journal ≡ state (seen L.meaning self.old log journal).contents (if is_ok result then emptied else L.meaning self.old.line) }
    {
        self.line.collect(buffer)
    }

    /// How many sets were taken since the last clear, as the counter shows it.
    pub fn current(&self) -> u32
        ensures { result ≡ self.now.chip.record.current.count }
    {
        self.chip.record.current()
    }

    /// How many sets were taken since the recorder was made, as the counter shows it.
    pub fn total(&self) -> u32
        ensures { result ≡ self.now.chip.control.total.count }
    {
        self.chip.control.total.value()
    }

    /// A byte joins the command so far, completes it, or begins none.
    fn hear(
        &mut self,
        log: &mut [u8],
        journal: &mut [JournalEntry],
        byte: u8,
    ) -> Result<(), Refusal>
        ensures answer { result ≡ heard_answer (seen L.meaning self.old log.old journal.old) byte (heard_by (seen L.meaning self.old log.old journal.old) byte) }
        ensures after { seen L.meaning self.new log.new journal.new ≡ heard_after (seen L.meaning self.old log.old journal.old) byte (heard_by (seen L.meaning self.old log.old journal.old) byte) }
    {
        match self.chip.control.received.hear(byte) {
            Heard::Part => Ok(()),
            Heard::Whole(command) => self.obey(log, journal, command),
            Heard::Unknown => {
                let _ = self.chip.control.registers.take_clear_enable();
                Err(Refusal::UnknownCommand { byte })
            }
        }
    }
}
