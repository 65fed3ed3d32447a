//! The record of a worked history.
ghost use Rattle.record.specs.Figures.{Figures};
ghost use Rattle.std.specs.Prelude.{◌≡◌};

/// The figures are what the definitions give.
pub fn figures_stand() -> u8
    ensures answer { result ≡ 0 }
    ensures figures { Figures }
{
    0
}
