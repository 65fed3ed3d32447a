//! The counter, and its form as three bytes.
ghost use Rattle.std.specs.Prelude.{◌≡◌, ℕ, ◌+◌, ◌≤◌};
ghost use Rattle.counter.specs.Counting.{counted, bytes_of, number_of};

/// How many things were counted, held at the highest number that three bytes hold.
#[derive(Clone, Copy)]
pub struct Counter {
    count: u32,
    ghost fits: { count ≤ 0xFF_FFFF },
}

impl Counter {
    /// The highest number of three bytes.
    pub const TOP: u32 = 0xFF_FFFF;

    /// A counter that has counted nothing.
    pub fn new() -> Counter
        ensures { result.count ≡ counted 0 }
    {
        Counter { count: 0 }
    }

    /// The number shown.
    pub fn value(&self) -> u32
        ensures { result ≡ self.now.count }
    {
        self.count
    }

    /// Counts one more.
    pub fn up(&mut self)
        ensures step { self.new.count ≡ counted (self.old.count + 1) }
        ensures law { (n : ℕ) → self.old.count ≡ counted n → self.new.count ≡ counted (n + 1) }
    {
        *self = Counter {
            count: self.value().saturating_add(1).min(Self::TOP),
        };
    }

    /// The three bytes of the number shown, low byte first.
    pub fn bytes(&self) -> [u8; 3]
        ensures value { result ≡ bytes_of self.now.count }
        ensures back { number_of result ≡ self.now.count }
    {
        let [low, middle, high, _] = self.value().to_le_bytes();
        [low, middle, high]
    }

    /// The counter that shows the number of three bytes, low byte first.
    pub fn from_bytes(bytes: [u8; 3]) -> Counter
        ensures value { result.count ≡ number_of bytes }
        ensures back { bytes_of result.count ≡ bytes }
    {
        let [low, middle, high] = bytes;
        Counter {
            count: u32::from_le_bytes([low, middle, high, 0]),
        }
    }
}
