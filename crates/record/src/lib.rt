//! The record of a mission: everything that a clear empties.
#![tactic(auto)]

mod figures;
mod record;

pub use figures::figures_stand;
pub use record::Record;
