//! One second on: each carry is a function of its own.
ghost use Rattle.clock.specs.Ticking.{after, first_of_next_month, midnight, next_day, ticked};
ghost use Rattle.std.specs.Prelude.{◌≡◌};

use crate::calendar::{
    LAST_HOUR, LAST_MINUTE, LAST_MONTH, LAST_SECOND, LAST_WEEKDAY, LAST_YEAR, Moment,
};
use crate::clock::Clock;

/// The number after another, where the first comes again after the last.
fn after(first: u8, last: u8, number: u8) -> u8
    ensures { result ≡ after first last number }
{
    if number < last { number + 1 } else { first }
}

/// The start of a day.
fn midnight(weekday: u8, date: u8, month: u8, year: u8) -> Moment
    ensures { result ≡ midnight weekday date month year }
{
    Moment {
        second: 0,
        minute: 0,
        hour: 0,
        weekday,
        date,
        month,
        year,
    }
}

/// Midnight of the first of the month after the moment's month.
fn first_of_next_month(moment: Moment, weekday: u8) -> Moment
    ensures { result ≡ first_of_next_month moment weekday }
{
    if moment.month < LAST_MONTH {
        midnight(weekday, 1, moment.month + 1, moment.year)
    } else {
        midnight(weekday, 1, 1, after(0, LAST_YEAR, moment.year))
    }
}

impl Clock {
    /// The clock at midnight of the day after its day.
    fn next_day(self) -> Clock
        ensures { result.moment ≡ next_day self.moment }
    {
        let day = self.moment;
        let weekday = after(1, LAST_WEEKDAY, day.weekday);
        let moment = if day.date < day.month_days() {
            midnight(weekday, day.date + 1, day.month, day.year)
        } else {
            first_of_next_month(day, weekday)
        };
        Clock { moment }
    }

    /// The clock one second later.
    pub(crate) fn next_second(self) -> Clock
        ensures { result.moment ≡ ticked self.moment }
    {
        let now = self.moment;
        let moment = if now.second < LAST_SECOND {
            Moment {
                second: now.second + 1,
                ..now
            }
        } else if now.minute < LAST_MINUTE {
            Moment {
                second: 0,
                minute: now.minute + 1,
                ..now
            }
        } else if now.hour < LAST_HOUR {
            Moment {
                second: 0,
                minute: 0,
                hour: now.hour + 1,
                ..now
            }
        } else {
            return self.next_day();
        };
        Clock { moment }
    }
}
