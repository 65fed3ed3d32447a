//! The register file: what each register holds, what it shows, and which writes it takes.
#![tactic(auto)]

mod clocking;
mod flags;
mod limiting;
mod registers;

pub use mission::{FlagPair, Flags};
pub use registers::{Registers, SERIAL_BYTES};
