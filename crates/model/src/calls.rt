//! The calls of a run, and what is noted of each.
use line::WIRE_BYTES;
use mission::Codes;
use refusal::Refusal;

/// What happens to a recorder while it is lent its memories.
#[derive(Clone, Copy)]
pub enum Action {
    /// A byte arrives on the cable.
    Byte(u8),
    /// A second passes, with the codes of the sensors.
    Second(Codes),
    /// The button is pressed.
    Press,
}

/// A call on a recorder.
#[derive(Clone, Copy)]
pub enum Call {
    /// An action, with memories of these lengths lent.
    Lent {
        log: usize,
        journal: usize,
        action: Action,
    },
    /// The cable has a gap.
    Gap,
    /// The reply that waits is collected into a buffer of so many bytes.
    Collect {
        room: usize,
    },
}

/// What a call that was not refused says.
#[derive(Clone, Copy, PartialEq, Eq, Debug)]
pub enum Success {
    /// It was done, and had nothing to say.
    Done,
    /// Whether a press started a mission.
    Pressed(bool),
    /// How many wire bytes were collected.
    Collected(usize),
}

/// What a call answered.
pub type Answer = Result<Success, Refusal>;

/// What is noted of a call: its answer, the wire bytes that it collected (then zeros), and the two counters after it.
#[derive(Clone, Copy)]
pub struct Outcome {
    pub answer: Answer,
    pub wire: [u8; WIRE_BYTES],
    pub current: u32,
    pub total: u32,
}
