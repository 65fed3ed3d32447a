//! Why a call is refused, with the values that were found.
ghost use Rattle.std.specs.Prelude.{◌≡◌};
ghost use Rattle.refusal.specs.Refusals.{layer_of, report_of};

use crate::report::{Layer, Report};

/// Whose buffer or list is too short: that of a line, or that of a service sheet.
#[derive(Clone, Copy, PartialEq, Eq, Debug)]
pub enum Shortage {
    Line,
    Sheet,
}

/// The layer that reports a shortage.
impl From<Shortage> for Layer {
    ghost from_gives = { λ shortage layer. layer ≡ layer_of shortage };

    fn from(shortage: Shortage) -> Layer {
        match shortage {
            Shortage::Line => Layer::Line,
            Shortage::Sheet => Layer::Sheet,
        }
    }
}

/// The sixteen causes, in the order in which they are tried and numbered.
#[derive(Clone, Copy, PartialEq, Eq, Debug)]
pub enum Refusal {
    /// The log or the journal memory has another length.
    MemoryLength,
    /// A byte arrives while a reply waits.
    ReplyWaits,
    /// The first byte of a command is no command code.
    UnknownCommand { byte: u8 },
    /// No rule lets this address be written.
    NoRule { address: u8 },
    /// The value breaks the rule of this address.
    BadValue { address: u8 },
    /// The sample rate is written while the record is not cleared.
    NotCleared,
    /// A sample rate that is not 0 is written while no channel is on.
    NoChannel,
    /// The address read lies above the register map.
    OutsideMap { address: u16 },
    /// The sensors are to be read during a mission.
    InMission,
    /// A clear that was not enabled.
    ClearDisabled,
    /// A collection while no reply waits.
    NothingWaits,
    /// A buffer or a list is shorter than `wanted`.
    TooShort { of: Shortage, wanted: usize },
    /// A temperature code above 250.
    BadTemperature { code: u8 },
    /// A byte is put to a line that waits or is full.
    LineFull,
    /// Wire bytes that the far end does not accept.
    BadWire,
    /// A section of a service sheet, whose count stands at `offset`, breaks its rule.
    BadSection { offset: usize },
}

/// The register of the sample rate.
const SAMPLE_RATE: usize = 0x0D;

/// The command that reads the sensors.
const READ_SENSORS: usize = 0x55;

/// The command that clears the record.
const CLEAR: usize = 0xA5;

/// The number, layer and place by which a refusal is reported.
impl From<Refusal> for Report {
    ghost from_gives = { λ refusal report. report ≡ report_of refusal };

    fn from(refusal: Refusal) -> Report {
        let (number, layer, place) = match refusal {
            Refusal::MemoryLength => (1, Layer::Memory, 0),
            Refusal::ReplyWaits => (2, Layer::Line, 0),
            Refusal::UnknownCommand { byte } => (3, Layer::Command, usize::from(byte)),
            Refusal::NoRule { address } => (4, Layer::Register, usize::from(address)),
            Refusal::BadValue { address } => (5, Layer::Register, usize::from(address)),
            Refusal::NotCleared => (6, Layer::Register, SAMPLE_RATE),
            Refusal::NoChannel => (7, Layer::Register, SAMPLE_RATE),
            Refusal::OutsideMap { address } => (8, Layer::Command, usize::from(address)),
            Refusal::InMission => (9, Layer::Command, READ_SENSORS),
            Refusal::ClearDisabled => (10, Layer::Command, CLEAR),
            Refusal::NothingWaits => (11, Layer::Line, 0),
            Refusal::TooShort { of, wanted } => (12, Layer::from(of), wanted),
            Refusal::BadTemperature { code } => (13, Layer::Sample, usize::from(code)),
            Refusal::LineFull => (14, Layer::Line, 0),
            Refusal::BadWire => (15, Layer::Line, 0),
            Refusal::BadSection { offset } => (16, Layer::Sheet, offset),
        };
        Report {
            number,
            layer,
            place,
        }
    }
}

impl Refusal {
    /// The number of this refusal in the list of causes.
    pub fn number(self) -> u8
        ensures { result ≡ (report_of self).number }
    {
        Report::from(self).number
    }

    /// The layer that found the cause.
    pub fn layer(self) -> Layer
        ensures { result ≡ (report_of self).layer }
    {
        Report::from(self).layer
    }

    /// Where the cause was found: a byte, an address, a length, a code or an offset; 0 where the layer says it all.
    pub fn place(self) -> usize
        ensures { result ≡ (report_of self).place }
    {
        Report::from(self).place
    }
}
