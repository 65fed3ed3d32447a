//! What the record shows besides the address map.
ghost use Rattle.alarm.specs.Table.{held_in};
ghost use Rattle.counter.specs.Counting.{counted};
ghost use Rattle.memory.specs.Logs.{used_by, used_of};
ghost use Rattle.mission.specs.Channels.{any_on};
ghost use Rattle.record.specs.Contents.{seen};
ghost use Rattle.record.specs.Histories.{record_of};
ghost use Rattle.record.specs.Sets.{Rules, SampleSet, width_by};
ghost use Rattle.std.specs.Prelude.{◌≡◌, ℕ, true, List, length};

use crate::record::Record;
use alarm::AlarmTable;
use mission::Sides;

impl Record {
    /// How many sets were taken since the last clear, held at FFFFFFh.
    pub fn current(&self) -> u32
        ensures value { result ≡ self.now.current.count }
        ensures law { (rules : Rules) (sets : List SampleSet) (memory : List ℕ) → seen self.now memory ≡ record_of rules sets
            → result ≡ counted (length sets) }
    {
        self.current.value()
    }

    /// How many bytes of the log hold rows.
    pub fn log_used(&self) -> usize
        ensures value { result ≡ used_of self.now.log.ring.next self.now.log.full }
        ensures law { (rules : Rules) (sets : List SampleSet) (memory : List ℕ) → any_on rules.channels ≡ true
            → seen self.now memory ≡ record_of rules sets → result ≡ used_by (width_by rules) (length sets) }
    {
        self.log.used()
    }

    /// The temperature bins, from bin 0 on.
    pub fn temperatures(&self) -> &[u16]
        ensures { result.now ≡ self.now.temperatures.bins }
    {
        self.temperatures.bins()
    }

    /// The voltage bins of channel 1, from bin 0 on.
    pub fn voltages(&self) -> &[u16]
        ensures { result.now ≡ self.now.voltages.bins }
    {
        self.voltages.bins()
    }

    /// The alarm records of low and of high temperatures.
    pub fn temperature_alarms(&self) -> Sides<&AlarmTable>
        ensures low { held_in result.low.now ≡ held_in self.now.temperature_alarms.low }
        ensures high { held_in result.high.now ≡ held_in self.now.temperature_alarms.high }
    {
        Sides {
            low: &self.temperature_alarms.low,
            high: &self.temperature_alarms.high,
        }
    }

    /// The alarm records of low and of high voltages of channel 1.
    pub fn one_alarms(&self) -> Sides<&AlarmTable>
        ensures low { held_in result.low.now ≡ held_in self.now.one_alarms.low }
        ensures high { held_in result.high.now ≡ held_in self.now.one_alarms.high }
    {
        Sides {
            low: &self.one_alarms.low,
            high: &self.one_alarms.high,
        }
    }
}
