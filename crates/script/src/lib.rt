//! The text of a bench script: each line names a call on a recorder, and each answer is a line.
#![tactic(auto)]

mod answer;
mod call;
mod figures;
mod parsing;
mod typing;

pub use answer::Answer;
pub use call::Call;
pub use figures::figures_stand;
