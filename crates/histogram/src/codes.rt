//! The bins of sensor codes.
ghost use Rattle.std.specs.Prelude.{◌≡◌};
ghost use Rattle.histogram.specs.Codes.{bin_of_code};

/// How many neighbouring codes share a bin.
const CODES_A_BIN: u8 = 4;

/// The bin of a sensor code.
pub(crate) fn bin_of(code: u8) -> usize
    ensures { result ≡ bin_of_code code }
{
    (code / CODES_A_BIN) as usize
}
