//! The closed list of causes for which a call is refused, and how a refusal is reported.
#![tactic(auto)]

mod refusal;
mod report;

pub use refusal::{Refusal, Shortage};
pub use report::{Layer, Report};
