//! Temperature readings.
ghost use Rattle.std.specs.Prelude.{◌≡◌, ◌<◌, ◌≤◌, MatchResult};
ghost use Rattle.histogram.specs.Codes.{bin_of_code};
ghost use Rattle.std.proofs.Common.{rules};

use crate::codes::bin_of;
use crate::histograms::Histogram;
use crate::kinds::{Binned, Kind};

/// The code of a temperature, 0 to 250.
#[derive(Clone, Copy)]
pub struct TemperatureCode {
    code: u8,
    ghost lawful: { code ≤ 250 },
}

impl TemperatureCode {
    /// The highest code of a temperature.
    pub const TOP: u8 = 250;
}

/// A code above 250, which is no temperature.
#[derive(Clone, Copy, PartialEq, Eq, Debug)]
pub struct NoTemperature(pub u8);

/// The temperature of a code.
impl TryFrom<u8> for TemperatureCode {
    type Error = NoTemperature;

    ghost try_from_gives = { λ code result. MatchResult result (λ t. t.code ≡ code) (λ e. (e.0 ≡ code) × (250 < code)) };

    fn try_from(code: u8) -> Result<Self, NoTemperature> {
        if code <= TemperatureCode::TOP {
            Ok(TemperatureCode { code })
        } else {
            Err(NoTemperature(code))
        }
    }
}

/// The code of a temperature, at most 250.
impl From<TemperatureCode> for u8 {
    ghost from_gives = { λ t code. (code ≡ t.code) × (code ≤ 250) };

    fn from(temperature: TemperatureCode) -> u8 {
        temperature.code
    }
}

/// The kind of temperature readings.
#[derive(Clone, Copy)]
pub struct Temperature;

impl Kind for Temperature {
    type Reading = TemperatureCode;

    const BINS: usize = 63;

    ghost place = { λ t. bin_of_code t.code };

    ghost bins = { 63 };

    ghost within = { Prim.search rules };

    ghost few = { Prim.search rules };

    fn bin(reading: TemperatureCode) -> usize {
        bin_of(reading.code)
    }
}

impl Binned<{ Temperature::BINS }> for Temperature {
    ghost whole = { Prim.search rules };
}

/// The histogram of temperatures.
pub type TemperatureHistogram = Histogram<Temperature, { Temperature::BINS }>;
