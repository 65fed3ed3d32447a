//! The registers of the clock, and the field of a moment that each holds.
ghost use Rattle.clock.specs.Registers.{Addressed, field_of, replaced};
ghost use Rattle.std.specs.Prelude.{◌≡◌};

use crate::calendar::Moment;

/// The seven registers of the clock, in the order of their addresses.
#[derive(Clone, Copy, PartialEq, Eq, Debug)]
pub enum ClockRegister {
    Seconds,
    Minutes,
    Hours,
    Weekday,
    Date,
    Month,
    Year,
}

/// An address at which the clock has no register.
#[derive(Clone, Copy, PartialEq, Eq, Debug)]
pub struct NoRegister(pub u8);

/// The register at an address, 0 to 6.
impl TryFrom<u8> for ClockRegister {
    type Error = NoRegister;

    ghost try_from_gives = { Addressed };

    fn try_from(address: u8) -> Result<Self, NoRegister> {
        match address {
            0 => Ok(ClockRegister::Seconds),
            1 => Ok(ClockRegister::Minutes),
            2 => Ok(ClockRegister::Hours),
            3 => Ok(ClockRegister::Weekday),
            4 => Ok(ClockRegister::Date),
            5 => Ok(ClockRegister::Month),
            6 => Ok(ClockRegister::Year),
            _ => Err(NoRegister(address)),
        }
    }
}

impl Moment {
    /// The field that the register holds.
    pub(crate) fn field(self, register: ClockRegister) -> u8
        ensures { result ≡ field_of self register }
    {
        match register {
            ClockRegister::Seconds => self.second,
            ClockRegister::Minutes => self.minute,
            ClockRegister::Hours => self.hour,
            ClockRegister::Weekday => self.weekday,
            ClockRegister::Date => self.date,
            ClockRegister::Month => self.month,
            ClockRegister::Year => self.year,
        }
    }

    /// The moment with the register's field replaced, which need not exist.
    pub(crate) fn with(mut self, register: ClockRegister, number: u8) -> Moment
        ensures { result ≡ replaced self register number }
    {
        match register {
            ClockRegister::Seconds => self.second = number,
            ClockRegister::Minutes => self.minute = number,
            ClockRegister::Hours => self.hour = number,
            ClockRegister::Weekday => self.weekday = number,
            ClockRegister::Date => self.date = number,
            ClockRegister::Month => self.month = number,
            ClockRegister::Year => self.year = number,
        }
        self
    }
}
