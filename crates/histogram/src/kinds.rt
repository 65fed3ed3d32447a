//! What a kind of reading is.
ghost use Rattle.std.specs.Prelude.{◌≡◌, ℕ, ◌<◌, ◌≤◌};

/// A kind of reading: each reading falls into one of a fixed number of bins.
pub trait Kind {
    /// One reading of this kind.
    type Reading: Copy + Drop;

    /// How many bins the kind has.
    const BINS: usize;

    /// The bin of a reading.
    ghost place: { Self.Reading → ℕ };

    /// `BINS`, as the laws name it.
    ghost bins: { ℕ };

    /// The bin of a reading, which lies below `BINS`.
    fn bin(reading: Self::Reading) -> usize
        ensures { result ≡ place reading };

    ghost within: { (r : Self.Reading) → place r < bins };

    /// Bins are so few that their sum fits 32 bits.
    ghost few: { bins ≤ 65536 };
}

/// A kind with `N` bins, so that arrays of bins can have that length. A kind is so at its own constant,
/// as in `impl Binned<{ Temperature::BINS }> for Temperature`: `whole` then refuses a `BINS` that is not
/// what `bins` says.
pub trait Binned<const N: usize>: Kind {
    ghost whole: { Self.Kind.bins ≡ N };
}
