//! One more sample set.
ghost use Rattle.arrayvec.specs.ArrayVec.{array_vec_len};
ghost use Rattle.mission.specs.Channels.{any_on};
ghost use Rattle.record.specs.Contents.{seen};
ghost use Rattle.record.specs.Histories.{Reads, record_of};
ghost use Rattle.record.specs.Sets.{SampleSet, if_on, row_with, rules_of, sampled, stamp_at};
ghost use Rattle.record.specs.Taking.{binned, taken};
ghost use Rattle.std.specs.Prelude.{◌≡◌, ◌+◌, ◌<◌, ◌≤◌, true, ◌&&◌, List, [], ◌∷◌, ◌++◌, if◌then◌else◌, nat_eq, nat_le};

use crate::record::Record;
use arrayvec::ArrayVec;
use clock::{Clock, ClockRegister};
use histogram::{TemperatureCode, TemperatureHistogram, VoltageCode, VoltageHistogram};
use memory::Row;
use mission::{Channels, Codes, Setting};

impl Record {
    /// Records one more set: the codes of this second, at the clock's moment, by the mission's setting.
    pub fn take(&mut self, log: &mut [u8], setting: &Setting, codes: Codes, clock: &Clock)
        ensures step { seen self.new log.new ≡ taken (rules_of setting.now) (seen self.old log.old) (sampled codes clock.now.moment) }
        ensures law { (sets : List SampleSet) → codes.temperature ≤ 250
            → seen self.old log.old ≡ record_of (rules_of setting.now) sets
            → seen self.new log.new ≡ record_of (rules_of setting.now) (sets ++ sampled codes clock.now.moment ∷ []) }
        ensures reads { (sets : List SampleSet) → seen self.old log.old ≡ record_of (rules_of setting.now) sets
            → Reads (rules_of setting.now) (sets ++ sampled codes clock.now.moment ∷ []) log.new }
    {
        let channels = setting.channels();
        let past = setting.limits().past(channels, codes);
        let row = row_of(channels, codes);
        self.stamp = self.stamp_after(clock);
        self.current.up();
        let number = self.current.value();
        self.log.write(log, row, setting.roll_over());
        self.temperature_alarms
            .low
            .note(number, past.temperature.low);
        self.temperature_alarms
            .high
            .note(number, past.temperature.high);
        self.one_alarms.low.note(number, past.one.low);
        self.one_alarms.high.note(number, past.one.high);
        count_voltage(&mut self.voltages, channels.one, codes.one);
        count_temperature(
            &mut self.temperatures,
            channels.temperature,
            codes.temperature,
        );
    }

    /// The start stamp once one more set is taken: only the first set gives it.
    fn stamp_after(&self, clock: &Clock) -> [u8; 5]
        ensures { result ≡ (if nat_eq self.now.current.count 0 then stamp_at clock.now.moment else self.now.stamp) }
    {
        if self.current.value() == 0 {
            stamp_of(clock)
        } else {
            self.stamp
        }
    }
}

/// The stamp of the clock's moment.
fn stamp_of(clock: &Clock) -> [u8; 5]
    ensures { result ≡ stamp_at clock.now.moment }
{
    [
        clock.read(ClockRegister::Minutes),
        clock.read(ClockRegister::Hours),
        clock.read(ClockRegister::Date),
        clock.read(ClockRegister::Month),
        clock.read(ClockRegister::Year),
    ]
}

/// The row of the codes of the channels that are on.
fn row_of(channels: Channels, codes: Codes) -> Row
    requires { any_on channels ≡ true }
    ensures { result ≡ row_with channels codes }
{
    let mut row = ArrayVec::new();
    push_if_on(&mut row, channels.temperature, codes.temperature);
    push_if_on(&mut row, channels.one, codes.one);
    push_if_on(&mut row, channels.two, codes.two);
    push_if_on(&mut row, channels.three, codes.three);
    Row::of_codes(row.as_slice()).unwrap()
}

/// Adds the code of a channel, if it is on.
fn push_if_on(row: &mut ArrayVec<u8, 4>, on: bool, code: u8)
    requires { array_vec_len row.old < 4 }
    ensures { row.new.items ≡ row.old.items ++ if_on on code }
{
    if on {
        row.push(code);
    }
}

/// Counts the temperature's code, if the channel is on and the code is a temperature.
fn count_temperature(bins: &mut TemperatureHistogram, on: bool, code: u8)
    ensures { bins.new.bins ≡ binned (on && nat_le code 250) bins.old.bins code }
{
    if on {
        if let Ok(reading) = TemperatureCode::try_from(code) {
            bins.count(reading);
        }
    }
}

/// Counts the voltage's code, if the channel is on.
fn count_voltage(bins: &mut VoltageHistogram, on: bool, code: u8)
    ensures { bins.new.bins ≡ binned on bins.old.bins code }
{
    if on {
        bins.count(VoltageCode::from(code));
    }
}
