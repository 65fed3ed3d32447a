//! Single bits of a byte.
#![tactic(auto)]

mod bits;

pub use bits::{is_set, weight};
