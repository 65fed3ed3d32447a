//! The recorder.
#![tactic(auto)]

mod chip;
mod recorder;

pub use chip::{Chip, Control, Mission};
pub use recorder::{NotMade, Recorder};
pub use registers::SERIAL_BYTES;
