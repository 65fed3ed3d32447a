//! Which limits were passed.
use crate::per_channel::{PerChannel, Sides};

/// Whether a code of one channel was at or below its low limit, and whether one was at or above its high limit.
pub type FlagPair = Sides<bool>;

/// The flags of each channel.
pub type Flags = PerChannel<FlagPair>;
