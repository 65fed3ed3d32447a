//! The bins of one kind of reading, and counting into them.
ghost use Rattle.std.specs.Prelude.{◌≡◌, ◌≤◌, List, [], ◌∷◌, ◌++◌, length, replicate, if◌then◌else◌, Some, None, sum, nat_lt, slice_index};
ghost use Rattle.histogram.specs.Bins.{NoneFull, bins_after, raised};

use crate::kinds::Binned;
use std::marker::PhantomData;

/// The bins of one kind of reading.
#[derive(Clone, Copy)]
pub struct Histogram<K: Binned<N>, const N: usize> {
    bins: [u16; N],
    kind: PhantomData<K>,
}

impl<K: Binned<N>, const N: usize> Histogram<K, N> {
    /// A histogram of no reading.
    pub fn new() -> Self
        ensures zeros { result.bins ≡ replicate N 0 }
        ensures history { result.bins ≡ bins_after K.Kind.place N [] }
    {
        Histogram {
            bins: [0; N],
            kind: PhantomData,
        }
    }

    /// Counts one reading: its bin goes one up, or stays once it is at the top.
    pub fn count(&mut self, reading: K::Reading)
        ensures step { self.new.bins ≡ raised self.old.bins (K.Kind.place reading) }
        ensures history { (readings : List K.Reading) → self.old.bins ≡ bins_after K.Kind.place N readings → self.new.bins ≡ bins_after K.Kind.place N (readings ++ reading ∷ []) }
    {
        let bin = K::bin(reading);
        self.bins[bin] = self.bins[bin].saturating_add(1);
    }

    /// How many bins there are.
    pub fn len(&self) -> usize
        ensures { result ≡ N }
    {
        self.bins.len()
    }

    /// What a bin holds; none at or past the number of bins.
    pub fn get(&self, bin: usize) -> Option<u16>
        ensures { result ≡ (if nat_lt bin N then Some (slice_index self.now.bins bin) else None) }
    {
        self.bins.get(bin).copied()
    }

    /// All bins, from bin 0 on.
    pub fn bins(&self) -> &[u16]
        ensures value { result.now ≡ self.now.bins }
        ensures len { length result.now ≡ N }
    {
        &self.bins
    }

    /// The sum of the bins: the number of readings, while no bin is at the top.
    pub fn total(&self) -> u32
        ensures sum { result ≡ sum self.now.bins }
        ensures history { (readings : List K.Reading) → self.now.bins ≡ bins_after K.Kind.place N readings → NoneFull N self.now.bins → result ≡ length readings }
    {
        sum_of(&self.bins)
    }
}

/// The sum of bins so few that it fits 32 bits.
fn sum_of(bins: &[u16]) -> u32
    requires { length bins.now ≤ 65536 }
    ensures { result ≡ sum bins.now }
{
    bins.iter().map(|held| u32::from(*held)).sum()
}
