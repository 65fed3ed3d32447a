//! The registers of the clock.
ghost use Rattle.std.specs.Option.{unwrap_or};
ghost use Rattle.std.specs.Prelude.{◌≡◌, is_some};
ghost use Rattle.registers.specs.Clocking.{clock_at, clock_takes, clock_with};

use clock::{Clock, ClockRegister};

/// What the clock shows at the address, 0 where it has no register there.
pub(crate) fn clock_at(clock: &Clock, address: u8) -> u8
    ensures { result ≡ clock_at clock.now.moment address }
{
    match ClockRegister::try_from(address) {
        Ok(register) => clock.read(register),
        Err(_) => 0,
    }
}

/// The clock after a write of the value at the address, if it takes the value.
pub(crate) fn clock_written(clock: Clock, address: u8, value: u8) -> Option<Clock>
    ensures takes { is_some result ≡ clock_takes clock.moment address value }
    ensures after { (unwrap_or result clock).moment ≡ clock_with clock.moment address value }
{
    let register = ClockRegister::try_from(address).ok()?;
    let mut written = clock;
    written.write(register, value).ok()?;
    Some(written)
}
