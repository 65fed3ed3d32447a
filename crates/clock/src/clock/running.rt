//! The tick.
ghost use Rattle.std.specs.Prelude.{◌≡◌, ◌+◌, ◌%◌};
ghost use Rattle.clock.specs.Elapsed.{century_seconds, seconds_since, Sole};
ghost use Rattle.clock.specs.Ticking.{rolls_over, ticked, weekday_after};

use crate::calendar::LAST_SECOND;
use crate::clock::Clock;

impl Clock {
    /// Goes one second on, and answers whether the seconds rolled over from 59 to 00.
    pub fn tick(&mut self) -> bool
        ensures answer { result ≡ rolls_over self.old.moment }
        ensures after { self.new.moment ≡ ticked self.old.moment }
        ensures counted { seconds_since self.new.moment ≡ (seconds_since self.old.moment + 1) % century_seconds }
        ensures weekday { self.new.moment.weekday ≡ weekday_after self.old.moment }
        ensures sole { Sole self.new.moment }
    {
        let rollover = self.moment.second == LAST_SECOND;
        *self = self.next_second();
        rollover
    }
}
