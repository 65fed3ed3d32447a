//! The alarm records of one side of a limit: the stretches of sample sets at or past the limit, cut into pieces.
#![tactic(auto)]

mod any_number;
mod figures;
mod record;
mod table;

pub use any_number::any_number_kept_stands;
pub use figures::figures_stand;
pub use record::AlarmRecord;
pub use table::{ALARM_RECORDS, AlarmTable};
