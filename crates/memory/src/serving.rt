//! Which memories a recorder can be lent.
ghost use Rattle.memory.specs.Serving.{serves};
ghost use Rattle.std.specs.Prelude.{◌≡◌};

use crate::journal::Journal;
use crate::log::Log;

/// Whether a log and a journal of these lengths can serve a recorder.
pub fn can_serve(log: usize, journal: usize) -> bool
    ensures { result ≡ serves log journal }
{
    log == Log::BYTES && journal == Journal::ENTRIES
}
