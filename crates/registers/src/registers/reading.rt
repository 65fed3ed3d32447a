//! What the registers show.
ghost use Rattle.std.specs.Prelude.{◌≡◌};
ghost use Rattle.registers.specs.Bytes.{control_byte, status_1, status_2};
ghost use Rattle.registers.specs.Contents.{contents_of};
ghost use Rattle.registers.specs.Reading.{shown};

use super::{Registers, SERIAL, USER};
use crate::clocking::clock_at;
use crate::limiting::limit_at;
use bits::weight;

impl Registers {
    /// The byte that the register at the address shows, where `running` says whether a mission is in
    /// progress; 0 where there is no register.
    pub fn read(&self, address: u16, running: bool) -> u8
        ensures { result ≡ shown (contents_of self.now) running address }
    {
        match address {
            0x00..=0x06 => clock_at(&self.clock, address as u8),
            0x0B | 0x0C | 0x23..=0x28 => limit_at(&self.limits, address as u8),
            0x0D => self.rate,
            0x0E => self.control_byte(),
            0x11 => self.latest.temperature,
            0x12 => self.delay.to_le_bytes()[0],
            0x13 => self.delay.to_le_bytes()[1],
            0x14 => self.status_1(running),
            0x20 => self.latest.one,
            0x21 => self.latest.two,
            0x22 => self.latest.three,
            0x29 => self.switches,
            0x2A => self.status_2(),
            0x40..=0x5F => self.user[address as usize - USER],
            0x218..=0x21F => self.serial[address as usize - SERIAL],
            _ => 0,
        }
    }

    /// Control 1, with the enabled clear in bit 6.
    fn control_byte(&self) -> u8
        ensures { result ≡ control_byte (contents_of self.now) }
    {
        self.control + weight(self.clear_enabled, 64)
    }

    /// Status 1: data ready in bit 7, the record cleared in bit 6, a mission in progress in bit 5, and the low and
    /// high flag of temperature in bits 2 and 1.
    fn status_1(&self, running: bool) -> u8
        ensures { result ≡ status_1 (contents_of self.now) running }
    {
        weight(self.ready, 128)
            + weight(self.cleared, 64)
            + weight(running, 32)
            + weight(self.flags.temperature.low, 4)
            + weight(self.flags.temperature.high, 2)
    }

    /// Status 2: the low and high flag of channel one in bits 6 and 5, of channel two in bits 4 and 3, of channel
    /// three in bits 2 and 1.
    fn status_2(&self) -> u8
        ensures { result ≡ status_2 (contents_of self.now) }
    {
        weight(self.flags.one.low, 64)
            + weight(self.flags.one.high, 32)
            + weight(self.flags.two.low, 16)
            + weight(self.flags.two.high, 8)
            + weight(self.flags.three.low, 4)
            + weight(self.flags.three.high, 2)
    }
}
