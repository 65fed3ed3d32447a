//! A counter of 24 bits that stays at its highest number.
#![tactic(auto)]

mod counter;

pub use counter::Counter;
