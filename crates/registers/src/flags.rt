//! The limit flags.
ghost use Rattle.std.specs.Prelude.{◌≡◌};
ghost use Rattle.registers.specs.Flags.{kept_pair, raised, raised_pair, status_1_kept, status_2_kept};

use bits::is_set;
use mission::{Channels, Codes, FlagPair, Flags, Limits};

/// The flags after the codes of a sample set.
pub(crate) fn raised(flags: Flags, channels: Channels, limits: &Limits, codes: Codes) -> Flags
    ensures { result ≡ raised flags channels limits.now codes }
{
    let past = limits.past(channels, codes);
    Flags {
        temperature: raised_pair(flags.temperature, past.temperature),
        one: raised_pair(flags.one, past.one),
        two: raised_pair(flags.two, past.two),
        three: raised_pair(flags.three, past.three),
    }
}

/// The flags of a channel, with those set whose limits are passed.
fn raised_pair(flags: FlagPair, past: FlagPair) -> FlagPair
    ensures { result ≡ raised_pair flags past }
{
    FlagPair {
        low: flags.low || past.low,
        high: flags.high || past.high,
    }
}

/// The flags after a write of Status 1.
pub(crate) fn kept_by_status_1(flags: Flags, byte: u8) -> Flags
    ensures { result ≡ status_1_kept flags byte }
{
    Flags {
        temperature: kept_pair(flags.temperature, 2, 1, byte),
        ..flags
    }
}

/// The flags after a write of Status 2.
pub(crate) fn kept_by_status_2(flags: Flags, byte: u8) -> Flags
    ensures { result ≡ status_2_kept flags byte }
{
    Flags {
        one: kept_pair(flags.one, 6, 5, byte),
        two: kept_pair(flags.two, 4, 3, byte),
        three: kept_pair(flags.three, 2, 1, byte),
        ..flags
    }
}

/// The flags of a channel without those at whose bits the byte has a 0.
fn kept_pair(flags: FlagPair, low_bit: u32, high_bit: u32, byte: u8) -> FlagPair
    ensures { result ≡ kept_pair flags low_bit high_bit byte }
{
    FlagPair {
        low: flags.low && is_set(byte, low_bit),
        high: flags.high && is_set(byte, high_bit),
    }
}
