//! Writes of registers.
ghost use Rattle.std.specs.Prelude.{◌≡◌, ◌<◌};
ghost use Rattle.registers.specs.Bytes.{delay_with, switches_byte, without_clear};
ghost use Rattle.registers.specs.Contents.{contents_of};
ghost use Rattle.registers.specs.Laws.{OthersShow, ReadsBack};
ghost use Rattle.registers.specs.Writing.{stops, stored, taken, write_after, write_answer};

use super::{Registers, USER};
use crate::clocking::clock_written;
use crate::flags::{kept_by_status_1, kept_by_status_2};
use crate::limiting::limits_with;
use bits::{is_set, weight};
use refusal::Refusal;

/// The address of the low byte of the start delay.
const DELAY: u8 = 0x12;

/// The address of the high byte of the start delay.
const DELAY_END: u8 = 0x13;

/// The bit of Control 1 that must be 0.
const ZERO_OF_CONTROL_1: u32 = 5;

/// The bit of Control 2 that must be 0.
const ZERO_OF_CONTROL_2: u32 = 7;

/// The bit of Control 1 that enables a clear.
const CLEAR_ENABLE: u32 = 6;

/// The bit of Status 1 that says that a mission is in progress.
const IN_PROGRESS: u32 = 5;

impl Registers {
    /// Whether a write that is taken stops a mission.
    pub fn stops(address: u8, value: u8) -> bool
        ensures { result ≡ stops address value }
    {
        match address {
            0x00..=0x06 | 0x0B | 0x0C | 0x0E | 0x12 | 0x13 | 0x23..=0x29 => true,
            0x14 => !is_set(value, IN_PROGRESS),
            _ => false,
        }
    }

    /// Writes the value to the register at the address. A refused write changes nothing. A write that is
    /// taken is read back, if its register keeps bytes, and no write changes what another register shows.
    pub fn write(&mut self, address: u8, value: u8) -> Result<(), Refusal>
        ensures answer { result ≡ write_answer (contents_of self.old) address value }
        ensures after { contents_of self.new ≡ write_after (contents_of self.old) address value }
        ensures back { result ≡ taken → ReadsBack address value (contents_of self.new) }
        ensures others { OthersShow address (contents_of self.old) (contents_of self.new) }
    {
        self.judge(address, value)?;
        self.store(address, value);
        Ok(())
    }

    /// Whether a write is taken, by the rule of its address.
    fn judge(&self, address: u8, value: u8) -> Result<(), Refusal>
        ensures { result ≡ write_answer (contents_of self.now) address value }
    {
        match address {
            0x00..=0x06 if clock_written(self.clock, address, value).is_none() => {
                Err(Refusal::BadValue { address })
            }
            0x0D if !self.cleared => Err(Refusal::NotCleared),
            0x0D if value != 0 && !self.channels().any() => Err(Refusal::NoChannel),
            0x0E if is_set(value, ZERO_OF_CONTROL_1) => Err(Refusal::BadValue { address }),
            0x29 if is_set(value, ZERO_OF_CONTROL_2) => Err(Refusal::BadValue { address }),
            0x00..=0x06 | 0x0B..=0x0E | 0x12..=0x14 | 0x23..=0x2A | 0x40..=0x5F => Ok(()),
            _ => Err(Refusal::NoRule { address }),
        }
    }

    /// What a write that is taken does to its register.
    fn store(&mut self, address: u8, value: u8)
        ensures { contents_of self.new ≡ stored (contents_of self.old) address value }
    {
        match address {
            0x00..=0x06 => {
                self.clock = clock_written(self.clock, address, value).unwrap_or(self.clock);
            }
            0x0B | 0x0C | 0x23..=0x28 => self.limits = limits_with(self.limits, address, value),
            0x0D => self.rate = value,
            0x0E => {
                self.clear_enabled = is_set(value, CLEAR_ENABLE);
                self.control = without_clear(value);
            }
            DELAY..=DELAY_END => self.delay = delay_with(self.delay, address - DELAY, value),
            0x14 => self.flags = kept_by_status_1(self.flags, value),
            0x29 => self.switches = switches_byte(value),
            0x2A => self.flags = kept_by_status_2(self.flags, value),
            0x40..=0x5F => self.user[address as usize - USER] = value,
            _ => {}
        }
    }
}

/// The byte without its bit 6.
fn without_clear(byte: u8) -> u8
    ensures { result ≡ without_clear byte }
{
    byte - weight(is_set(byte, CLEAR_ENABLE), 64)
}

/// The byte with its bit 0 set.
fn switches_byte(byte: u8) -> u8
    ensures { result ≡ switches_byte byte }
{
    byte / 2 * 2 + 1
}

/// The start delay with another byte i, byte 0 the low one.
fn delay_with(delay: u16, i: u8, byte: u8) -> u16
    requires { i < 2 }
    ensures { result ≡ delay_with delay i byte }
{
    let mut bytes = delay.to_le_bytes();
    bytes[usize::from(i)] = byte;
    u16::from_le_bytes(bytes)
}
