//! A record of no set.
ghost use Rattle.record.specs.Contents.{cleared, empty_over, seen};
ghost use Rattle.record.specs.Histories.{record_of};
ghost use Rattle.record.specs.Sets.{Rules};
ghost use Rattle.std.specs.Prelude.{◌≡◌, ℕ, List, [], length, replicate};

use crate::record::Record;
use alarm::AlarmTable;
use counter::Counter;
use histogram::{TemperatureHistogram, VoltageHistogram};
use memory::Log;
use mission::Sides;

impl Record {
    /// A record of no set.
    pub fn new() -> Record
        ensures value { (memory : List ℕ) → seen result memory ≡ empty_over memory }
        ensures law { (rules : Rules) (memory : List ℕ) → length memory ≡ 2048 → memory ≡ replicate (length memory) 0
            → seen result memory ≡ record_of rules [] }
    {
        Record {
            current: Counter::new(),
            stamp: [0; 5],
            log: Log::new(),
            temperatures: TemperatureHistogram::new(),
            voltages: VoltageHistogram::new(),
            temperature_alarms: Sides {
                low: AlarmTable::new(),
                high: AlarmTable::new(),
            },
            one_alarms: Sides {
                low: AlarmTable::new(),
                high: AlarmTable::new(),
            },
        }
    }

    /// Empties the record, and fills the log's memory with zeros.
    pub fn clear(&mut self, log: &mut [u8])
        ensures step { seen self.new log.new ≡ cleared (length log.old) }
        ensures law { (rules : Rules) → length log.old ≡ 2048 → seen self.new log.new ≡ record_of rules [] }
    {
        *self = Record::new();
        log.fill(0);
    }
}
