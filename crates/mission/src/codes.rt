//! What the sensors read.
use crate::per_channel::PerChannel;

/// The codes of one second: temperature and the voltage channels, whether they are on or not.
pub type Codes = PerChannel<u8>;
