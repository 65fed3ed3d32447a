//! The setting of a mission.
ghost use Rattle.std.specs.Prelude.{◌≡◌, ◌<◌, true, is_some, IfSome};
ghost use Rattle.mission.specs.Channels.{any_on};
ghost use Rattle.mission.specs.Setting.{can_run};

use crate::channels::Channels;
use crate::limits::Limits;

/// What a mission keeps to from its start on: the rate in rollovers, the start delay in rollovers,
/// whether a full log rolls over, the channels and the limits. Its rate is never 0, and a channel is on.
#[derive(Clone, Copy)]
pub struct Setting {
    rate: u8,
    delay: u16,
    roll_over: bool,
    channels: Channels,
    limits: Limits,
    ghost paced: { 0 < rate },
    ghost sampled: { any_on channels ≡ true },
}

impl Setting {
    /// A setting of these values; none where the rate is 0 or no channel is on.
    pub fn new(
        rate: u8,
        delay: u16,
        roll_over: bool,
        channels: Channels,
        limits: Limits,
    ) -> Option<Setting>
        ensures test { is_some result ≡ can_run rate channels }
        ensures held { IfSome result (λ s. (s.rate ≡ rate) × (s.delay ≡ delay) × (s.roll_over ≡ roll_over) × (s.channels ≡ channels) × (s.limits ≡ limits)) }
    {
        if rate == 0 || !channels.any() {
            return None;
        }
        Some(Setting {
            rate,
            delay,
            roll_over,
            channels,
            limits,
        })
    }

    /// How many rollovers there are from one sample set to the next, never 0.
    pub fn rate(&self) -> u8
        ensures value { result ≡ self.now.rate }
        ensures paced { 0 < result }
    {
        self.rate
    }

    /// How many rollovers pass before the one that takes the first sample set.
    pub fn delay(&self) -> u16
        ensures { result ≡ self.now.delay }
    {
        self.delay
    }

    /// Whether rows go on from the start of the log once it is full.
    pub fn roll_over(&self) -> bool
        ensures { result ≡ self.now.roll_over }
    {
        self.roll_over
    }

    /// The channels that are on, one at least.
    pub fn channels(&self) -> Channels
        ensures value { result ≡ self.now.channels }
        ensures sampled { any_on result ≡ true }
    {
        self.channels
    }

    /// The limits that codes are judged by.
    pub fn limits(&self) -> Limits
        ensures { result ≡ self.now.limits }
    {
        self.limits
    }
}
