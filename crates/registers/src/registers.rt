//! The registers.
ghost use Rattle.std.specs.Prelude.{◌≡◌, false, length};
ghost use Rattle.bits.specs.Bits.{bit};

use clock::Clock;
use mission::{Codes, Flags, Limits};

/// The address of the first byte of user memory.
const USER: usize = 0x40;

/// How many bytes the user memory has.
const USER_BYTES: usize = 32;

/// The address of the first byte of the serial number.
const SERIAL: usize = 0x218;

/// How many bytes the serial number has.
pub const SERIAL_BYTES: usize = 8;

/// The clock, the settings, the status, the user memory and the serial number of a recorder.
#[derive(Drop)]
pub struct Registers {
    clock: Clock,
    limits: Limits,
    rate: u8,
    /// Control 1 without its bit 6, which stands in `clear_enabled`.
    control: u8,
    clear_enabled: bool,
    delay: u16,
    latest: Codes,
    ready: bool,
    cleared: bool,
    flags: Flags,
    /// Control 2 as it reads.
    switches: u8,
    user: [u8; USER_BYTES],
    serial: [u8; SERIAL_BYTES],
    ghost apart: { bit 6 control ≡ false },
    ghost whole: { length user ≡ 32 },
    ghost numbered: { length serial ≡ 8 },
}

mod reading;
mod running;
mod setting;
mod writing;
