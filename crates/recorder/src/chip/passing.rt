//! What a second does to a chip.
ghost use Rattle.std.specs.Prelude.{◌≡◌, false, cond, List};
ghost use Rattle.memory.specs.declared.event.JournalEntry.{JournalEntry};
ghost use Rattle.record.specs.Sets.{rules_of};
ghost use Rattle.registers.specs.Contents.{contents_of};
ghost use Rattle.recorder.specs.Contents.{contents};
ghost use Rattle.recorder.specs.Seconds.{passed, rolled, sampled, served_registers};

use crate::chip::{Chip, Control};
use mission::{Codes, Setting};

impl Control {
    /// An open sensor read is served: the codes of the channels that are on are stored, and data is ready.
    fn serve(&mut self, codes: Codes)
        ensures registers { contents_of self.new.registers ≡ served_registers self.old.sensing (contents_of self.old.registers) codes }
        ensures sensing { self.new.sensing ≡ false }
        ensures received { self.new.received ≡ self.old.received }
        ensures mission { self.new.mission ≡ self.old.mission }
        ensures total { self.new.total ≡ self.old.total }
        ensures journal { self.new.journal ≡ self.old.journal }
    {
        if self.sensing {
            let channels = self.registers.channels();
            self.registers.latch(channels, codes);
            self.registers.set_ready(true);
            self.sensing = false;
        }
    }
}

impl Chip {
    /// A second passes: the clock moves, an open sensor read is served, and a rollover counts for a mission in progress.
    pub(crate) fn pass(&mut self, log: &mut [u8], codes: Codes)
        ensures { (journal : List JournalEntry) → contents self.new log.new journal ≡ passed (contents self.old log.old journal) codes }
    {
        let rollover = self.control.registers.tick();
        self.control.serve(codes);
        if rollover {
            self.roll(log, codes);
        }
    }

    /// A rollover: the delay register falls, the schedule goes on, and a set that is due is taken.
    fn roll(&mut self, log: &mut [u8], codes: Codes)
        ensures { (journal : List JournalEntry) → contents self.new log.new journal ≡ rolled (contents self.old log.old journal) codes }
    {
        if let Some(mut mission) = self.control.mission {
            let due = mission.schedule.rollover();
            self.control.registers.count_delay_down();
            self.control.mission = Some(mission);
            if due {
                self.sample(log, &mission.setting, codes);
            }
        }
    }

    /// One more set is recorded, and counted.
    fn sample(&mut self, log: &mut [u8], setting: &Setting, codes: Codes)
        ensures { (journal : List JournalEntry) → contents self.new log.new journal ≡ sampled (contents self.old log.old journal) (rules_of setting.now) codes }
    {
        let channels = setting.channels();
        let limits = setting.limits();
        self.control.registers.latch(channels, codes);
        self.control.registers.raise_flags(channels, &limits, codes);
        let clock = self.control.registers.clock();
        self.record.take(log, setting, codes, &clock);
        self.control.total.up();
    }
}
