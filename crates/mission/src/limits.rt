//! The limits that readings are judged by.
ghost use Rattle.std.specs.Prelude.{◌≡◌};
ghost use Rattle.mission.specs.Limits.{high_code, low_code, past, past_pair};

use crate::channels::Channels;
use crate::codes::Codes;
use crate::flags::{FlagPair, Flags};
use crate::per_channel::{PerChannel, Sides};

/// The low and the high limit of one channel. With the low one at or above the high one, a code can be
/// low and high at once.
pub type LimitPair = Sides<u8>;

impl LimitPair {
    /// Whether a code is low: at or below the low limit.
    pub fn is_low(&self, code: u8) -> bool
        ensures { result ≡ low_code self.now code }
    {
        code <= self.low
    }

    /// Whether a code is high: at or above the high limit.
    pub fn is_high(&self, code: u8) -> bool
        ensures { result ≡ high_code self.now code }
    {
        code >= self.high
    }

    /// The limits that the code of a channel is at or past, if the channel is on.
    fn past(&self, on: bool, code: u8) -> FlagPair
        ensures { result ≡ past_pair self.now on code }
    {
        FlagPair {
            low: on && self.is_low(code),
            high: on && self.is_high(code),
        }
    }
}

/// The limits of each channel.
pub type Limits = PerChannel<LimitPair>;

impl Limits {
    /// Which limits the codes of the channels that are on are at or past.
    pub fn past(&self, channels: Channels, codes: Codes) -> Flags
        ensures { result ≡ past self.now channels codes }
    {
        Flags {
            temperature: self
                .temperature
                .past(channels.temperature, codes.temperature),
            one: self.one.past(channels.one, codes.one),
            two: self.two.past(channels.two, codes.two),
            three: self.three.past(channels.three, codes.three),
        }
    }
}
