//! The model recorder, made of histories, and whole runs of a recorder.
#![tactic(auto)]

mod calls;
mod performing;
mod running;

pub use calls::{Action, Answer, Call, Outcome, Success};
pub use running::run;
