//! The rollovers of a mission's clock.
ghost use Rattle.std.specs.Prelude.{◌≡◌, ℕ, ◌+◌, ◌-◌};
ghost use Rattle.mission.specs.Schedule.{due, seen, Stands, taken, ticked};

use crate::schedule::Schedule;
use crate::setting::Setting;

impl Schedule {
    /// The schedule at the start of a mission.
    pub fn start(setting: &Setting) -> Schedule
        ensures step { seen result ≡ record { delay = setting.now.delay; skip = 0; rate = setting.now.rate } }
        ensures history { Stands (seen result) setting.now.delay setting.now.rate 0 }
    {
        Schedule {
            delay: setting.delay(),
            skip: 0,
            rate: setting.rate(),
        }
    }

    /// One rollover passes. Whether a sample set is taken at it.
    pub fn rollover(&mut self) -> bool
        ensures answer { result ≡ taken (seen self.old) }
        ensures after { seen self.new ≡ ticked (seen self.old) }
        ensures history { (d rate k : ℕ) → Stands (seen self.old) d rate k → (result ≡ due d rate (k + 1)) × Stands (seen self.new) d rate (k + 1) }
    {
        self.count_down()
    }

    /// How many rollovers are left of the start delay.
    pub fn delay_left(&self) -> u16
        ensures value { result ≡ (seen self.now).delay }
        ensures history { (d r k : ℕ) → Stands (seen self.now) d r k → result ≡ d - k }
    {
        self.delay
    }
}
