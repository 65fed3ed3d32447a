//! The recorder, over any line.
use crate::chip::Chip;
use line::Line;
use refusal::Refusal;

/// A recorder: its line, and all else.
#[derive(Drop)]
pub struct Recorder<L: Line> {
    line: L,
    chip: Chip,
}

/// Why a recorder was not made, and the line as it was handed over.
#[derive(Drop)]
pub struct NotMade<L> {
    pub refusal: Refusal,
    pub line: L,
}

mod calls;
mod obeying;
