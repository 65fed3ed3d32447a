//! The registers of the limits.
ghost use Rattle.std.specs.Prelude.{◌≡◌};
ghost use Rattle.registers.specs.Limiting.{limit_at, limits_with};

use mission::Limits;

/// The limit at the address, 0 where no limit stands.
pub(crate) fn limit_at(limits: &Limits, address: u8) -> u8
    ensures { result ≡ limit_at limits.now address }
{
    match address {
        0x0B => limits.temperature.low,
        0x0C => limits.temperature.high,
        0x23 => limits.one.low,
        0x24 => limits.one.high,
        0x25 => limits.two.low,
        0x26 => limits.two.high,
        0x27 => limits.three.low,
        0x28 => limits.three.high,
        _ => 0,
    }
}

/// The limits after a write of the value at the address.
pub(crate) fn limits_with(limits: Limits, address: u8, value: u8) -> Limits
    ensures { result ≡ limits_with limits address value }
{
    let mut changed = limits;
    match address {
        0x0B => changed.temperature.low = value,
        0x0C => changed.temperature.high = value,
        0x23 => changed.one.low = value,
        0x24 => changed.one.high = value,
        0x25 => changed.two.low = value,
        0x26 => changed.two.high = value,
        0x27 => changed.three.low = value,
        0x28 => changed.three.high = value,
        _ => {}
    }
    changed
}
