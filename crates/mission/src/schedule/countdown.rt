//! How the countdowns of a schedule move.
ghost use Rattle.std.specs.Prelude.{◌≡◌};
ghost use Rattle.mission.specs.Schedule.{seen, taken, ticked};

use crate::schedule::Schedule;

impl Schedule {
    /// Moves the countdowns by one rollover. Whether they were both over, so that a sample set is taken.
    pub(super) fn count_down(&mut self) -> bool
        ensures answer { result ≡ taken (seen self.old) }
        ensures after { seen self.new ≡ ticked (seen self.old) }
    {
        if self.delay > 0 {
            self.delay -= 1;
            false
        } else if self.skip > 0 {
            self.skip -= 1;
            false
        } else {
            self.skip = self.rate - 1;
            true
        }
    }
}
