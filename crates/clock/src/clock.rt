//! The clock, which always stands at a moment that exists.
mod access;
mod running;
mod ticking;

ghost use Rattle.clock.specs.Calendar.{DateExists, Exists, TimeExists, WeekdayExists};
ghost use Rattle.clock.specs.Elapsed.{seconds_since};
ghost use Rattle.clock.specs.Ticking.{first_moment};
ghost use Rattle.std.specs.Prelude.{◌≡◌, MatchOption};

use crate::calendar::Moment;
pub use access::BadField;

/// A clock that stands at a moment that exists.
#[derive(Clone, Copy)]
pub struct Clock {
    moment: Moment,
    ghost time: { TimeExists moment },
    ghost weekday: { WeekdayExists moment },
    ghost date: { DateExists moment },
}

impl Clock {
    /// A clock at 1 January 2000, 00:00:00, weekday 1.
    pub fn new() -> Clock
        ensures value { result.moment ≡ first_moment }
        ensures counted { seconds_since result.moment ≡ 0 }
    {
        Clock {
            moment: Moment {
                second: 0,
                minute: 0,
                hour: 0,
                weekday: 1,
                date: 1,
                month: 1,
                year: 0,
            },
        }
    }

    /// A clock at the moment, if there is such a moment.
    pub fn at(moment: Moment) -> Option<Clock>
        ensures { MatchOption result (Exists moment → ⊥) (λ c. Exists moment × (c.moment ≡ moment)) }
    {
        if moment.exists() {
            Some(Clock { moment })
        } else {
            None
        }
    }

    /// The moment at which the clock stands.
    pub fn moment(&self) -> Moment
        ensures value { result ≡ self.now.moment }
        ensures lawful { Exists result }
    {
        self.moment
    }
}
