//! Histograms of readings: how often each bin was hit, for every kind of reading.
//!
//! A kind names its reading, how many bins it has and the bin of a reading. Counting is written and
//! proved once, in `Histogram`, for every kind.
#![tactic(auto)]

mod codes;
mod figures;
mod histograms;
mod kinds;
mod temperatures;
mod voltages;

pub use figures::figures_stand;
pub use histograms::Histogram;
pub use kinds::{Binned, Kind};
pub use temperatures::{NoTemperature, Temperature, TemperatureCode, TemperatureHistogram};
pub use voltages::{Voltage, VoltageCode, VoltageHistogram};
