//! How many sample sets a schedule takes.
ghost use Rattle.mission.specs.Sets.{SetCount};
ghost use Rattle.std.specs.Prelude.{◌≡◌};

/// After any number of rollovers, a quotient tells how many sample sets were due.
pub fn set_count_stands() -> u8
    ensures answer { result ≡ 0 }
    ensures stands { SetCount }
{
    0
}
