//! A calendar clock of the years 2000 to 2099, read and written register by register in BCD.
#![tactic(auto)]

mod bcd;
mod calendar;
mod clock;
mod figures;
mod registers;

pub use calendar::Moment;
pub use clock::{BadField, Clock};
pub use figures::figures_stand;
pub use registers::{ClockRegister, NoRegister};
