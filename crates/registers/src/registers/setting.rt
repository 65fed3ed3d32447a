//! What the recorder asks of the registers.
ghost use Rattle.std.specs.Prelude.{◌≡◌, is_some, IfSome};
ghost use Rattle.mission.specs.Setting.{can_run};
ghost use Rattle.registers.specs.Contents.{contents_of};
ghost use Rattle.registers.specs.Steps.{by_button, channels_on, SetBy};

use super::Registers;
use bits::is_set;
use clock::Clock;
use mission::{Channels, Setting};

/// The bit of Control 1 by which the button starts a mission.
const START_BY_BUTTON: u32 = 4;

/// The bit of Control 1 by which a full log rolls over.
const ROLL_OVER: u32 = 3;

impl Registers {
    /// The setting of a mission that would start now; none where it could not run.
    pub fn setting(&self) -> Option<Setting>
        ensures test { is_some result ≡ can_run (contents_of self.now).rate (channels_on (contents_of self.now)) }
        ensures held { IfSome result (SetBy (contents_of self.now)) }
    {
        Setting::new(
            self.rate,
            self.delay,
            is_set(self.control, ROLL_OVER),
            self.channels(),
            self.limits,
        )
    }

    /// The channels that are on.
    pub fn channels(&self) -> Channels
        ensures { result ≡ channels_on (contents_of self.now) }
    {
        Channels::from_control(self.switches)
    }

    /// Whether the button starts a mission.
    pub fn starts_by_button(&self) -> bool
        ensures { result ≡ by_button (contents_of self.now) }
    {
        is_set(self.control, START_BY_BUTTON)
    }

    /// Whether the record is cleared.
    pub fn is_cleared(&self) -> bool
        ensures { result ≡ (contents_of self.now).cleared }
    {
        self.cleared
    }

    /// The clock.
    pub fn clock(&self) -> Clock
        ensures { result.moment ≡ (contents_of self.now).moment }
    {
        self.clock
    }
}
