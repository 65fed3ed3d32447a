//! The worked figures of alarm records.
ghost use Rattle.alarm.specs.Figures.{Figures};
ghost use Rattle.std.specs.Prelude.{◌≡◌};

/// The definitions give the worked figures.
pub fn figures_stand() -> u8
    ensures answer { result ≡ 0 }
    ensures figures { Figures }
{
    0
}
