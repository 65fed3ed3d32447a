//! What a recorder does with a whole command.
ghost use Rattle.std.specs.Prelude.{◌≡◌, [], if◌then◌else◌, Ok, Err, nat_lt};
ghost use Rattle.line.specs.Sending.{send_after};
ghost use Rattle.recorder.specs.Contents.{contents};
ghost use Rattle.recorder.specs.Map.{page_from};
ghost use Rattle.recorder.specs.Seen.{seen};
ghost use Rattle.recorder.specs.State.{obey_answer, obeyed};

use crate::chip::Chip;
use crate::recorder::Recorder;
use command::Command;
use line::{Line, send};
use memory::JournalEntry;
use refusal::Refusal;

/// The first address above the map.
const MAP_END: u16 = 0x1800;

impl<L: Line> Recorder<L> {
    /// Obeys a whole command. It uses up the clear enable, whatever comes of it.
    pub(super) fn obey(
        &mut self,
        log: &mut [u8],
        journal: &mut [JournalEntry],
        command: Command,
    ) -> Result<(), Refusal>
        ensures answer { result ≡ obey_answer (seen L.meaning self.old log.old journal.old) command }
        ensures after { seen L.meaning self.new log.new journal.new ≡ obeyed (seen L.meaning self.old log.old journal.old) command }
    {
        let enabled = self.chip.control.registers.take_clear_enable();
        match command {
            Command::Write { address, value } => self.chip.control.write(journal, address, value),
            Command::Read { address } => reply(&mut self.line, &self.chip, log, address),
            Command::ReadSensors => self.chip.read_sensors(),
            Command::Clear => self.chip.clear_if(log, journal, enabled),
        }
    }
}

/// Makes the bytes from the address to the end of its page wait on the line.
fn reply<L: Line>(line: &mut L, chip: &Chip, log: &[u8], address: u16) -> Result<(), Refusal>
    ensures answer { result ≡ (if nat_lt address 0x1800 then Ok tt else Err (Refusal.OutsideMap address)) }
    ensures line { L.meaning line.new ≡ (if nat_lt address 0x1800 then send_after (page_from (contents chip.now log.now []) address) else L.meaning line.old) }
{
    if address >= MAP_END {
        return Err(Refusal::OutsideMap { address });
    }
    send(line, chip.page(log, address).as_slice())
}
