//! The bytes of a command so far.
ghost use Rattle.std.specs.Prelude.{◌≡◌, ◌<◌, length};

/// How many bytes the longest command has.
pub const COMMAND_BYTES: usize = 3;

/// The beginning of a command that is still to be completed, or nothing.
#[derive(Clone, Copy)]
pub struct Received {
    bytes: [u8; COMMAND_BYTES],
    count: usize,
    ghost whole: { length bytes ≡ 3 },
    ghost unfinished: { count < 3 },
}

mod hearing;
