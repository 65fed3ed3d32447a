//! A mission: its setting at the start, and the schedule by which it takes sample sets.
#![tactic(auto)]

mod channels;
mod codes;
mod figures;
mod flags;
mod limits;
mod per_channel;
mod schedule;
mod sets;
mod setting;

pub use channels::Channels;
pub use codes::Codes;
pub use figures::figures_stand;
pub use flags::{FlagPair, Flags};
pub use limits::{LimitPair, Limits};
pub use per_channel::{PerChannel, Sides};
pub use schedule::Schedule;
pub use sets::set_count_stands;
pub use setting::Setting;
