//! One alarm record.

/// A piece of a stretch of sets at or past the limit: the number of its first set, held at FFFFFFh, and how many sets it has.
#[derive(Clone, Copy, Debug, Default, PartialEq, Eq)]
pub struct AlarmRecord {
    pub stamp: u32,
    pub length: u8,
}
