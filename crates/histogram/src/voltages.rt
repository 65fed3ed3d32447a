//! Voltage readings.
ghost use Rattle.std.specs.Prelude.{◌≡◌, ◌<◌};
ghost use Rattle.histogram.specs.Codes.{bin_of_code};
ghost use Rattle.std.proofs.Common.{rules};

use crate::codes::bin_of;
use crate::histograms::Histogram;
use crate::kinds::{Binned, Kind};

/// The code of a voltage, 0 to 255.
#[derive(Clone, Copy)]
pub struct VoltageCode {
    code: u8,
    ghost byte: { code < 256 },
}

/// The voltage of a code.
impl From<u8> for VoltageCode {
    ghost from_gives = { λ code v. v.code ≡ code };

    fn from(code: u8) -> VoltageCode {
        VoltageCode { code }
    }
}

/// The code of a voltage.
impl From<VoltageCode> for u8 {
    ghost from_gives = { λ v code. code ≡ v.code };

    fn from(voltage: VoltageCode) -> u8 {
        voltage.code
    }
}

/// The kind of voltage readings.
#[derive(Clone, Copy)]
pub struct Voltage;

impl Kind for Voltage {
    type Reading = VoltageCode;

    const BINS: usize = 64;

    ghost place = { λ v. bin_of_code v.code };

    ghost bins = { 64 };

    ghost within = { Prim.search rules };

    ghost few = { Prim.search rules };

    fn bin(reading: VoltageCode) -> usize {
        bin_of(reading.code)
    }
}

impl Binned<{ Voltage::BINS }> for Voltage {
    ghost whole = { Prim.search rules };
}

/// The histogram of voltages.
pub type VoltageHistogram = Histogram<Voltage, { Voltage::BINS }>;
