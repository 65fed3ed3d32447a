//! The table of one side's alarm records.
mod noting;

ghost use Rattle.std.specs.Prelude.{◌≡◌, ◌<◌, ◌≤◌, true, length};
ghost use Rattle.alarm.specs.Pieces.{last_length};

use crate::record::AlarmRecord;

/// How many alarm records a side keeps.
pub const ALARM_RECORDS: usize = 6;

/// The alarm records of a side. The first `used` of them are kept pieces, of which the last may still grow; the others are zero.
#[derive(Clone, Copy)]
pub struct AlarmTable {
    records: [AlarmRecord; ALARM_RECORDS],
    used: u8,
    growing: bool,
    ghost whole: { length records ≡ 6 },
    ghost within: { used ≤ 6 },
    ghost some: { growing ≡ true → 0 < used },
    ghost shorter: { growing ≡ true → last_length records used < 255 },
}
