//! How a refusal is reported.

/// The layer that found the cause of a refusal.
#[derive(Clone, Copy, PartialEq, Eq, Debug)]
pub enum Layer {
    Memory,
    Line,
    Command,
    Register,
    Sample,
    Sheet,
}

/// A refusal as its caller sees it. It travels up unaltered from the layer that found it.
#[derive(Clone, Copy, PartialEq, Eq, Debug)]
pub struct Report {
    pub number: u8,
    pub layer: Layer,
    pub place: usize,
}
