//! Reading and writing the registers.
ghost use Rattle.clock.specs.Bcd.{Bcd, number_of};
ghost use Rattle.clock.specs.Registers.{Acceptable, accepts, field_of, OthersStay, reading, replaced, write_answer};
ghost use Rattle.std.specs.Prelude.{◌≡◌, if◌then◌else◌, Decides, is_ok, IsOk};

use crate::bcd::{from_bcd, to_bcd};
use crate::clock::Clock;
use crate::registers::ClockRegister;

/// Why a byte is not written to a register.
#[derive(Clone, Copy, PartialEq, Eq, Debug)]
pub enum BadField {
    /// The byte is not BCD.
    NotBcd,
    /// The moment would not exist.
    NoMoment,
}

impl Clock {
    /// The register's field in BCD.
    pub fn read(&self, register: ClockRegister) -> u8
        ensures value { result ≡ reading self.now.moment register }
        ensures digits { (Bcd result) × (number_of result ≡ field_of self.now.moment register) }
    {
        to_bcd(self.moment.field(register))
    }

    /// Sets the register's field from a BCD byte.
    ///
    /// It refuses a byte that is not BCD, and one with which the moment would not exist.
    /// A write of the seconds is no rollover.
    pub fn write(&mut self, register: ClockRegister, value: u8) -> Result<(), BadField>
        ensures answer { result ≡ write_answer self.old.moment register value }
        ensures accepted { is_ok result ≡ accepts self.old.moment register value }
        ensures after { self.new.moment ≡ (if is_ok result then replaced self.old.moment register (number_of value) else self.old.moment) }
        ensures decides { Decides (is_ok result) (Acceptable self.old.moment register value) }
        ensures others { OthersStay register self.old.moment self.new.moment }
        ensures kept { IsOk result → reading self.new.moment register ≡ value }
    {
        let number = from_bcd(value).ok_or(BadField::NotBcd)?;
        let changed = self.moment.with(register, number);
        *self = Clock::at(changed).ok_or(BadField::NoMoment)?;
        Ok(())
    }
}
