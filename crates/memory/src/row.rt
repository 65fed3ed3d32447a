//! A row of the log.
ghost use Rattle.memory.specs.Rows.{row_of, width_of};
ghost use Rattle.std.specs.Prelude.{◌≡◌};

/// The codes of one sample set, in a row of one, two or four bytes.
#[derive(Clone, Copy, Debug, PartialEq, Eq)]
pub enum Row {
    /// The code of one channel.
    One(u8),
    /// The codes of two channels.
    Two(u8, u8),
    /// The codes of four channels, or of three and a spare byte.
    Four(u8, u8, u8, u8),
}

impl Row {
    /// The row for the codes of one to four channels. Three channels leave a spare byte, 0, at the end.
    pub fn of_codes(codes: &[u8]) -> Option<Self>
        ensures { result ≡ row_of codes.now }
    {
        match codes {
            [a] => Some(Row::One(*a)),
            [a, b] => Some(Row::Two(*a, *b)),
            [a, b, c] => Some(Row::Four(*a, *b, *c, 0)),
            [a, b, c, d] => Some(Row::Four(*a, *b, *c, *d)),
            _ => None,
        }
    }

    /// How many bytes of the log the row takes.
    pub fn width(self) -> usize
        ensures { result ≡ width_of self }
    {
        match self {
            Row::One(_) => 1,
            Row::Two(_, _) => 2,
            Row::Four(_, _, _, _) => 4,
        }
    }
}
