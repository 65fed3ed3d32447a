//! A value for each channel, and for each side of a channel.

/// A value for temperature and for each voltage channel.
#[derive(Clone, Copy, Default, PartialEq, Eq, Debug)]
pub struct PerChannel<T> {
    pub temperature: T,
    pub one: T,
    pub two: T,
    pub three: T,
}

/// A value for the low side and for the high side.
#[derive(Clone, Copy, Default, PartialEq, Eq, Debug)]
pub struct Sides<T> {
    pub low: T,
    pub high: T,
}
