//! The worked figures of the clock.
ghost use Rattle.clock.specs.Figures.{Figures};
ghost use Rattle.std.specs.Prelude.{◌≡◌};

/// Names the worked figures of the clock, so that they are proved; its answer says nothing.
pub fn figures_stand() -> u8
    ensures answer { result ≡ 0 }
    ensures figures { Figures }
{
    0
}
