//! What is recorded of a mission.
mod clearing;
mod reading;
mod showing;
mod taking;

use alarm::AlarmTable;
use counter::Counter;
use histogram::{TemperatureHistogram, VoltageHistogram};
use memory::Log;
use mission::Sides;

/// The record of the sample sets since the last clear. The log's rows are in memory that is lent at each call.
#[derive(Clone, Copy)]
pub struct Record {
    /// How many sets were taken.
    current: Counter,
    /// When the first set was taken: minutes, hours, date, month and year in BCD.
    stamp: [u8; 5],
    log: Log,
    temperatures: TemperatureHistogram,
    voltages: VoltageHistogram,
    temperature_alarms: Sides<AlarmTable>,
    one_alarms: Sides<AlarmTable>,
}
