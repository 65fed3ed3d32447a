//! The channels that a mission samples.
ghost use Rattle.std.specs.Prelude.{◌≡◌};
ghost use Rattle.mission.specs.Channels.{any_on, channels_of, number_on, row_width};

use crate::per_channel::PerChannel;
use bits::is_set;

// The bits of the control byte that switch the channels on.
const TEMPERATURE_BIT: u32 = 6;

const ONE_BIT: u32 = 5;

const TWO_BIT: u32 = 4;

const THREE_BIT: u32 = 3;

/// Which channels are on.
pub type Channels = PerChannel<bool>;

impl Channels {
    /// The channels that a control byte switches on: temperature by bit 6, channels one, two and three
    /// by bits 5, 4 and 3.
    pub fn from_control(bits: u8) -> Channels
        ensures { result ≡ channels_of bits }
    {
        Channels {
            temperature: is_set(bits, TEMPERATURE_BIT),
            one: is_set(bits, ONE_BIT),
            two: is_set(bits, TWO_BIT),
            three: is_set(bits, THREE_BIT),
        }
    }

    /// Whether a channel is on.
    pub fn any(&self) -> bool
        ensures { result ≡ any_on self.now }
    {
        self.temperature || self.one || self.two || self.three
    }

    /// How many channels are on.
    pub fn count(&self) -> u8
        ensures { result ≡ number_on self.now }
    {
        u8::from(self.temperature) + u8::from(self.one) + u8::from(self.two) + u8::from(self.three)
    }

    /// How many bytes a row of the log takes; none where no channel is on, since there is no row then.
    pub fn row_width(&self) -> usize
        ensures { result ≡ row_width (number_on self.now) }
    {
        match self.count() {
            0 => 0,
            1 => 1,
            2 => 2,
            _ => 4,
        }
    }
}
