//! How missions start and stop, and what the journal notes of it.
ghost use Rattle.std.specs.Prelude.{◌≡◌, not, ◌&&◌, ◌==◌, nat_lt};
ghost use Rattle.registers.specs.Contents.{contents_of};
ghost use Rattle.registers.specs.Writing.{write_answer};
ghost use Rattle.recorder.specs.Control.{controls, noted, pressed, press_starts, started_if_can, starts, stop_kind, stopped, written};

use crate::chip::{Control, Mission};
use memory::{EventKind, JournalEntry};
use mission::Schedule;
use refusal::Refusal;
use registers::Registers;

/// The sample rate.
const SAMPLE_RATE: u8 = 0x0D;

/// Status 1.
const STATUS_1: u8 = 0x14;

impl Control {
    /// The journal notes an event, with Total as it stands.
    pub(super) fn note(&mut self, journal: &mut [JournalEntry], kind: EventKind, address: u8)
        ensures { controls self.new journal.new ≡ noted (controls self.old journal.old) kind address }
    {
        let total = self.total.value();
        self.journal.note(
            journal,
            JournalEntry {
                kind,
                address,
                total,
            },
        );
    }

    /// Starts a mission with what the registers hold, if it can run.
    fn start(&mut self, journal: &mut [JournalEntry], address: u8)
        ensures { controls self.new journal.new ≡ started_if_can (controls self.old journal.old) address }
    {
        if let Some(setting) = self.registers.setting() {
            let schedule = Schedule::start(&setting);
            self.mission = Some(Mission { setting, schedule });
            self.registers.start();
            self.note(journal, EventKind::Start, address);
        }
    }

    /// Stops a mission in progress, because the register at the address was written.
    fn stop(&mut self, journal: &mut [JournalEntry], address: u8)
        ensures { controls self.new journal.new ≡ stopped (controls self.old journal.old) address }
    {
        if self.mission.is_some() {
            self.mission = None;
            self.note(journal, kind_of_stop(address), address);
        }
    }

    /// Writes a register. An accepted write may stop a mission in progress, and may start one.
    pub(crate) fn write(
        &mut self,
        journal: &mut [JournalEntry],
        address: u8,
        value: u8,
    ) -> Result<(), Refusal>
        ensures answer { result ≡ write_answer (contents_of self.old.registers) address value }
        ensures after { controls self.new journal.new ≡ written (controls self.old journal.old) address value }
    {
        let by_button = self.registers.starts_by_button();
        self.registers.write(address, value)?;
        if Registers::stops(address, value) {
            self.stop(journal, address);
        }
        if is_start(address, value, by_button) {
            self.start(journal, address);
        }
        Ok(())
    }

    /// The button is pressed: whether that starts a mission.
    pub(crate) fn press(&mut self, journal: &mut [JournalEntry]) -> bool
        ensures answer { result ≡ press_starts (controls self.old journal.old).registers }
        ensures after { controls self.new journal.new ≡ pressed (controls self.old journal.old) }
    {
        if !self.registers.starts_by_button() || !self.registers.is_cleared() {
            return false;
        }
        if self.registers.setting().is_none() {
            return false;
        }
        self.start(journal, 0);
        true
    }
}

/// Whether an accepted write starts a mission.
fn is_start(address: u8, value: u8, by_button: bool) -> bool
    ensures { result ≡ (address == 0x0D && nat_lt 0 value && not by_button) }
{
    address == SAMPLE_RATE && value > 0 && !by_button
}

/// The kind of event of a stop by a write to the address.
fn kind_of_stop(address: u8) -> EventKind
    ensures { result ≡ stop_kind address }
{
    if address == STATUS_1 {
        EventKind::StatusStop
    } else {
        EventKind::Stop
    }
}
