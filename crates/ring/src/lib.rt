//! A roll-over store over lent memory: it keeps the latest entries, and each new one takes the place of the oldest.
#![tactic(auto)]

mod store;

ghost use Rattle.ring.specs.History.{BlankAtFirst, BlankStands, NoOtherStands, WrittenOutStands};
ghost use Rattle.std.specs.Prelude.{◌≡◌};

pub use store::Ring;

/// The memory that stands for a history can be written out place by place, and it is the only one. A blank memory, whose
/// next entry goes to place 0, stands for the history with no entry.
pub fn written_out_stands<T>() -> u8
    ensures answer { result ≡ 0 }
    ensures stands { WrittenOutStands T }
    ensures only { NoOtherStands T }
    ensures blank { BlankAtFirst T }
    ensures start { BlankStands T }
{
    0
}
