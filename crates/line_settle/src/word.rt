//! Words: numbers whose bits are a set of positions, so that one form of the passes serves lines of any length.

ghost use Rattle.std.specs.Prelude.{◌≡◌, ℕ, ◌+◌, ◌-◌, ◌*◌, ◌/◌, ◌%◌, ◌^◌, ◌<◌, ◌≤◌, ◌==◌, ◌&&◌, ◌||◌, bit_and, bit_or, bit_xor};
ghost use Rattle.std.proofs.Common.{lit≤};
ghost use Rattle.line_facts.specs.BitSets.{has};

/// A set of positions, of which position i is bit i of a number. A line of fewer cells than the width fits in it, with
/// the position after its last cell.
pub trait Word: Copy + Drop {
    ghost bits: { Self → ℕ };

    ghost width: { ℕ };

    /// How many powers of two are below the width.
    fn rounds() -> usize
        ensures few { result ≤ 7 }
        ensures width { 2 ^ result ≡ width };

    /// The set of the positions below 64 that are the bits of a number.
    fn low(places: u64) -> Self
        ensures { bits result ≡ places };

    /// The set of one position.
    #[inline]
    fn place(at: usize) -> Self
        requires { at < width }
        ensures value { bits result ≡ 2 ^ at }
        ensures each { (i : ℕ) → has (bits result) i ≡ (i == at) }
    {
        Self::low(1).up(at)
    }

    /// The positions of both sets.
    fn and(self, other: Self) -> Self
        ensures { bits result ≡ bit_and (bits self) (bits other) };

    /// The positions of either set.
    fn or(self, other: Self) -> Self
        ensures { bits result ≡ bit_or (bits self) (bits other) };

    /// The positions of one of the sets alone.
    fn xor(self, other: Self) -> Self
        ensures { bits result ≡ bit_xor (bits self) (bits other) };

    /// The sum of the numbers, modulo two to the power of the width.
    fn plus(self, other: Self) -> Self
        ensures { bits result ≡ (bits self + bits other) % 2 ^ width };

    /// The difference of the numbers, of which `other` is not the greater one.
    fn minus(self, other: Self) -> Self
        requires { bits other ≤ bits self }
        ensures { bits result ≡ bits self - bits other };

    /// Each position moved down by `steps`. Those below `steps` are dropped.
    fn down(self, steps: usize) -> Self
        requires { steps < width }
        ensures { bits result ≡ bits self / 2 ^ steps };

    /// Each position moved up by `steps`. Those that reach the width are dropped.
    fn up(self, steps: usize) -> Self
        requires { steps < width }
        ensures { bits result ≡ bits self * 2 ^ steps % 2 ^ width };

    /// Whether the set has the first position.
    #[inline]
    fn has_first(self) -> bool
        ensures { result ≡ has (bits self) 0 }
    {
        self.low_eight() & 1 == 1
    }

    /// Whether the set is empty.
    fn is_none(self) -> bool
        ensures value { result ≡ (bits self == 0) }
        ensures fits { bits self < 2 ^ width };

    /// The positions below 8.
    fn low_eight(self) -> u16
        ensures { result ≡ bit_and (bits self) 255 };

    ghost wide: { 64 ≤ width };

    ghost narrow: { width ≤ 128 };
}

impl Word for u64 {
    ghost bits = { λ n. n };

    ghost width = { 64 };

    #[inline]
    fn rounds() -> usize {
        6
    }

    #[inline]
    fn low(places: u64) -> u64 {
        places
    }

    #[inline]
    fn and(self, other: u64) -> u64 {
        self & other
    }

    #[inline]
    fn or(self, other: u64) -> u64 {
        self | other
    }

    #[inline]
    fn xor(self, other: u64) -> u64 {
        self ^ other
    }

    #[inline]
    fn plus(self, other: u64) -> u64 {
        self.wrapping_add(other)
    }

    #[inline]
    fn minus(self, other: u64) -> u64 {
        self - other
    }

    #[inline]
    fn down(self, steps: usize) -> u64 {
        self >> steps
    }

    #[inline]
    fn up(self, steps: usize) -> u64 {
        self << steps
    }

    #[inline]
    fn is_none(self) -> bool {
        self == 0
    }

    #[inline]
    fn low_eight(self) -> u16 {
        (self & 0xff) as u16
    }

    ghost wide = { lit≤ tt };

    ghost narrow = { lit≤ tt };
}

impl Word for u128 {
    ghost bits = { λ n. n };

    ghost width = { 128 };

    #[inline]
    fn rounds() -> usize {
        7
    }

    #[inline]
    fn low(places: u64) -> u128 {
        u128::from(places)
    }

    #[inline]
    fn and(self, other: u128) -> u128 {
        self & other
    }

    #[inline]
    fn or(self, other: u128) -> u128 {
        self | other
    }

    #[inline]
    fn xor(self, other: u128) -> u128 {
        self ^ other
    }

    #[inline]
    fn plus(self, other: u128) -> u128 {
        self.wrapping_add(other)
    }

    #[inline]
    fn minus(self, other: u128) -> u128 {
        self - other
    }

    #[inline]
    fn down(self, steps: usize) -> u128 {
        self >> steps
    }

    #[inline]
    fn up(self, steps: usize) -> u128 {
        self << steps
    }

    #[inline]
    fn is_none(self) -> bool {
        self == 0
    }

    #[inline]
    fn low_eight(self) -> u16 {
        (self & 0xff) as u16
    }

    ghost wide = { lit≤ tt };

    ghost narrow = { lit≤ tt };
}
