//! The cutting for any number of records kept.
ghost use Rattle.alarm.specs.Held.{AnyNumberKept};
ghost use Rattle.std.specs.Prelude.{◌≡◌};

/// Cutting stretches into pieces goes step by step, whatever number of records a side keeps.
#[tactic(auto, using(crate::proofs::Keeping::steps))]
pub fn any_number_kept_stands() -> u8
    ensures answer { result ≡ 0 }
    ensures stands { AnyNumberKept }
{
    0
}
