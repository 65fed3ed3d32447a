//! The store of one reply, which the lines of this crate are made of.
ghost use Rattle.line.specs.Reply.{Sound, reply};

use crate::line::REPLY_BYTES;
use arrayvec::ArrayVec;

/// The data bytes of a reply, and whether it waits.
#[derive(Drop)]
pub struct Store {
    bytes: ArrayVec<u8, REPLY_BYTES>,
    waiting: bool,
    ghost sound: { Sound (reply bytes.items waiting) },
}

mod filling;
