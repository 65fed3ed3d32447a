//! How the table follows the sets, and what it shows.
ghost use Rattle.std.specs.Prelude.{◌≡◌, ◌+◌, Bool, List, [], ◌∷◌, ◌++◌, length, if◌then◌else◌, Some, None, nat_lt, slice_index_or};
ghost use Rattle.alarm.specs.Pieces.{stamp_of, blank};
ghost use Rattle.alarm.specs.Held.{held_of, noted};
ghost use Rattle.alarm.specs.Table.{held_in};

use super::{ALARM_RECORDS, AlarmTable};
use crate::record::AlarmRecord;

/// How many sets a full piece has.
const PIECE_SETS: u8 = 255;

impl AlarmTable {
    /// A table that has kept nothing, as after a clear.
    pub fn new() -> AlarmTable
        ensures { held_in result ≡ held_of 6 [] }
    {
        AlarmTable {
            records: [AlarmRecord::default(); ALARM_RECORDS],
            used: 0,
            growing: false,
        }
    }

    /// Notes one more set: its number, held at FFFFFFh, and whether it is at or past the limit.
    /// A table that holds what some sets define holds what those sets and this one define.
    pub fn note(&mut self, stamp: u32, past: bool)
        ensures step { held_in self.new ≡ noted 6 (held_in self.old) stamp past }
        ensures law { (sets : List Bool) → held_in self.old ≡ held_of 6 sets → stamp ≡ stamp_of (length sets + 1)
            → held_in self.new ≡ held_of 6 (sets ++ past ∷ []) }
    {
        let used = self.used();
        if !past {
            self.growing = false;
        } else if self.growing {
            let last = &mut self.records[used - 1];
            last.length += 1;
            self.growing = last.length < PIECE_SETS;
        } else if used < ALARM_RECORDS {
            self.records[used] = AlarmRecord { stamp, length: 1 };
            self.used += 1;
            self.growing = true;
        }
    }

    /// How many records are kept.
    pub fn used(&self) -> usize
        ensures { result ≡ (held_in self.now).used }
    {
        self.used as usize
    }

    /// All records: the kept ones, then zero records.
    pub fn records(&self) -> &[AlarmRecord; ALARM_RECORDS]
        ensures { result.now ≡ (held_in self.now).records }
    {
        &self.records
    }

    /// The record at place `i`, from 0; none from place 6 on.
    pub fn record(&self, i: usize) -> Option<AlarmRecord>
        ensures { result ≡ (if nat_lt i 6 then Some (slice_index_or (held_in self.now).records i blank) else None) }
    {
        self.records.get(i).copied()
    }
}
