//! Bytes as text: two upper-case hexadecimal digits each, with one space between them.
#![tactic(auto)]

mod pairs;
mod short;
mod typing;

pub use pairs::{byte, digit, digits};
pub use short::{CAPACITY, ShortBytes};
pub use typing::{next_spaced, push_spaced, read, write};
