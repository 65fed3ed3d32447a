//! The calendar: which moments exist.
ghost use Rattle.std.specs.Prelude.{◌≡◌, ◌≤◌, Decides};
ghost use Rattle.clock.specs.Calendar.{date_exists, days_in, Exists, leap, moment_exists};

pub(crate) const LAST_SECOND: u8 = 59;

pub(crate) const LAST_MINUTE: u8 = 59;

pub(crate) const LAST_HOUR: u8 = 23;

pub(crate) const LAST_WEEKDAY: u8 = 7;

pub(crate) const LAST_MONTH: u8 = 12;

pub(crate) const LAST_YEAR: u8 = 99;

const FEBRUARY: u8 = 2;

/// The days of each month of a year that is no leap year, January first.
static MONTH_DAYS: [u8; 12] = [31, 28, 31, 30, 31, 30, 31, 31, 30, 31, 30, 31];

/// A time, a weekday and a date, which need not exist; year 0 is 2000.
#[derive(Clone, Copy)]
pub struct Moment {
    pub second: u8,
    pub minute: u8,
    pub hour: u8,
    pub weekday: u8,
    pub date: u8,
    pub month: u8,
    pub year: u8,
}

/// Whether the year is a leap year, as each fourth from 2000 on is.
fn is_leap(year: u8) -> bool
    ensures { result ≡ leap year }
{
    year % 4 == 0
}

impl Moment {
    /// How many days the moment's month has in its year.
    pub(crate) fn month_days(self) -> u8
        requires { (1 ≤ self.month) × (self.month ≤ 12) }
        ensures { result ≡ days_in self.year self.month }
    {
        let days = MONTH_DAYS[(self.month - 1) as usize];
        if self.month == FEBRUARY && is_leap(self.year) {
            days + 1
        } else {
            days
        }
    }

    /// Whether the date stands in the calendar.
    fn date_exists(self) -> bool
        ensures { result ≡ date_exists self }
    {
        1 <= self.month
            && self.month <= LAST_MONTH
            && self.year <= LAST_YEAR
            && 1 <= self.date
            && self.date <= self.month_days()
    }

    /// Whether there is such a moment.
    pub(crate) fn exists(self) -> bool
        ensures value { result ≡ moment_exists self }
        ensures decides { Decides result (Exists self) }
    {
        self.second <= LAST_SECOND
            && self.minute <= LAST_MINUTE
            && self.hour <= LAST_HOUR
            && 1 <= self.weekday
            && self.weekday <= LAST_WEEKDAY
            && self.date_exists()
    }
}
