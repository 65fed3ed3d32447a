//! Worked examples of lines and answers.
ghost use Rattle.std.specs.Prelude.{◌≡◌};
ghost use Rattle.script.specs.Figures.{Figures};

/// The examples are what the definitions give.
pub fn figures_stand() -> u8
    ensures answer { result ≡ 0 }
    ensures figures { Figures }
{
    0
}
