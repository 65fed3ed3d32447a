//! Worked figures of codes and bins.
ghost use Rattle.histogram.specs.Figures.{Figures};
ghost use Rattle.std.specs.Prelude.{◌≡◌};

/// The figures are what the definitions give.
pub fn figures_stand() -> u8
    ensures answer { result ≡ 0 }
    ensures figures { Figures }
{
    0
}
