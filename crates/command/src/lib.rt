//! Commands: a code byte and the parameter bytes behind it, as they arrive one by one.
#![tactic(auto)]

mod command;
mod received;

pub use command::{Command, Heard, decode};
pub use received::Received;
