//! The address map of a chip, and the pages that are read from it.
ghost use Rattle.std.specs.Prelude.{◌≡◌, []};
ghost use Rattle.registers.specs.Reading.{within};
ghost use Rattle.recorder.specs.Contents.{contents};
ghost use Rattle.recorder.specs.Map.{in_record, map_at, page_from};

use crate::chip::Chip;
use arrayvec::ArrayVec;

/// The first address of Total.
const TOTAL: u16 = 0x1D;

/// The last address of Total.
const TOTAL_END: u16 = 0x1F;

/// How many bytes a page has.
const PAGE_BYTES: usize = 32;

/// How many addresses a page has.
const PAGE_SIZE: u16 = PAGE_BYTES as u16;

/// Whether Total stands at the address.
fn is_in_total(address: u16) -> bool
    ensures { result ≡ within 0x1D 0x1F address }
{
    matches!(address, TOTAL..=TOTAL_END)
}

/// Whether the record stands at the address: its start, its alarm records, its bins or its log.
fn is_in_record(address: u16) -> bool
    ensures { result ≡ in_record address }
{
    matches!(
        address,
        0x15..=0x1C | 0x220..=0x27F | 0x800..=0x8FF | 0x1000..=0x17FF
    )
}

impl Chip {
    /// The byte at an address. The journal has no address.
    pub(crate) fn read(&self, log: &[u8], address: u16) -> u8
        ensures { result ≡ map_at (contents self.now log.now []) address }
    {
        if is_in_total(address) {
            self.control.total.bytes()[(address - TOTAL) as usize]
        } else if is_in_record(address) {
            self.record.read(log, address)
        } else {
            self.control
                .registers
                .read(address, self.control.mission.is_some())
        }
    }

    /// The bytes from the address to the end of its page.
    pub(crate) fn page(&self, log: &[u8], address: u16) -> ArrayVec<u8, PAGE_BYTES>
        ensures { result.items ≡ page_from (contents self.now log.now []) address }
    {
        let last = address - address % PAGE_SIZE + (PAGE_SIZE - 1);
        let mut page = ArrayVec::new();
        for place in address..=last {
            page.push(self.read(log, place));
        }
        page
    }
}
