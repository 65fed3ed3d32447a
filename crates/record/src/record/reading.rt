//! The record's part of the address map.
ghost use Rattle.std.specs.Prelude.{◌≡◌, ◌/◌, ◌<◌, length, slice_index};
ghost use Rattle.alarm.specs.Table.{held_in};
ghost use Rattle.counter.specs.Counting.{bytes_of};
ghost use Rattle.record.specs.Contents.{seen};
ghost use Rattle.record.specs.Map.{alarm_byte, alarm_bytes, bin_byte, record_at};

use crate::record::Record;
use alarm::{AlarmRecord, AlarmTable};
use counter::Counter;

// The first address of each part.
const STAMP: u16 = 0x15;

const CURRENT: u16 = 0x1A;

const TEMPERATURE_LOW: u16 = 0x220;

const TEMPERATURE_HIGH: u16 = 0x238;

const ONE_LOW: u16 = 0x250;

const ONE_HIGH: u16 = 0x268;

const TEMPERATURES: u16 = 0x800;

const VOLTAGES: u16 = 0x880;

const LOG: u16 = 0x1000;

/// How many bytes an alarm record has.
const ALARM_BYTES: u16 = 4;

/// How many bytes a bin has.
const BIN_BYTES: u16 = 2;

impl Record {
    /// The byte of the record at the address; 0 where the record has none.
    pub fn read(&self, log: &[u8], address: u16) -> u8
        ensures { result ≡ record_at (seen self.now log.now) address }
    {
        match address {
            STAMP..=0x19 => self.stamp[(address - STAMP) as usize],
            CURRENT..=0x1C => current_byte(self.current, address - CURRENT),
            TEMPERATURE_LOW..=0x237 => alarm_byte(
                &self.temperature_alarms.low,
                address - TEMPERATURE_LOW,
            ),
            TEMPERATURE_HIGH..=0x24F => alarm_byte(
                &self.temperature_alarms.high,
                address - TEMPERATURE_HIGH,
            ),
            ONE_LOW..=0x267 => alarm_byte(&self.one_alarms.low, address - ONE_LOW),
            ONE_HIGH..=0x27F => alarm_byte(&self.one_alarms.high, address - ONE_HIGH),
            TEMPERATURES..=0x87D => bin_byte(self.temperatures.bins(), address - TEMPERATURES),
            VOLTAGES..=0x8FF => bin_byte(self.voltages.bins(), address - VOLTAGES),
            LOG..=0x17FF => log_byte(log, address - LOG),
            _ => 0,
        }
    }
}

/// Byte i of Current, low byte first.
fn current_byte(current: Counter, i: u16) -> u8
    requires { i < 3 }
    ensures { result ≡ slice_index (bytes_of current.count) i }
{
    let bytes = current.bytes();
    bytes[i as usize]
}

/// The bytes of an alarm record.
fn alarm_bytes(record: AlarmRecord) -> [u8; 4]
    ensures { result ≡ alarm_bytes «record» }
{
    let [low, middle, high, _] = record.stamp.to_le_bytes();
    [low, middle, high, record.length]
}

/// Byte i of a side's alarm records.
fn alarm_byte(table: &AlarmTable, i: u16) -> u8
    requires { i < 24 }
    ensures { result ≡ alarm_byte (held_in table.now) i }
{
    let records = table.records();
    let bytes = alarm_bytes(records[(i / ALARM_BYTES) as usize]);
    bytes[(i % ALARM_BYTES) as usize]
}

/// Byte i of bins.
fn bin_byte(bins: &[u16], i: u16) -> u8
    requires { i / 2 < length bins.now }
    ensures { result ≡ bin_byte bins.now i }
{
    let bytes = bins[(i / BIN_BYTES) as usize].to_le_bytes();
    bytes[(i % BIN_BYTES) as usize]
}

/// Byte i of the log's memory, and 0 past its end.
fn log_byte(log: &[u8], i: u16) -> u8
    ensures { result ≡ slice_index log.now i }
{
    log.get(i as usize).copied().unwrap_or(0)
}
