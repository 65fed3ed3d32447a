//! The schedule of a mission.
ghost use Rattle.std.specs.Prelude.{◌<◌};

mod countdown;
mod rollovers;

/// When the sample sets of a running mission are taken. It counts down and never up, so that it goes on
/// however many rollovers pass.
#[derive(Clone, Copy)]
pub struct Schedule {
    /// The rollovers left of the start delay.
    delay: u16,
    /// The rollovers to pass over before the next sample set, once the delay is over.
    skip: u8,
    rate: u8,
    ghost paced: { 0 < rate },
}
