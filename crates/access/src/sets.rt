// Sets of rights.
ghost use Rattle.std.specs.Prelude.{◌≡◌, ℕ, ◌^◌, ◌<◌, false, ◌||◌, ◌==◌, nat_lt};
ghost use Rattle.access.specs.Bits.{bit};
ghost use Rattle.access.specs.Numbers.{right_number};

use crate::rights::Right;

// A set of rights: bit k stands for the right of number k.
#[derive(Clone, Copy, PartialEq, Eq)]
pub struct RightSet {
    bits: u8,
    ghost small: { bits < 2 ^ 7 },
}

impl RightSet {
    pub fn empty() -> Self
        ensures { (k : ℕ) → bit result.bits k ≡ false }
    {
        RightSet { bits: 0 }
    }

    // All seven rights.
    pub fn full() -> Self
        ensures { (k : ℕ) → bit result.bits k ≡ nat_lt k 7 }
    {
        RightSet { bits: 0b111_1111 }
    }

    // The set with one right more.
    pub fn with(self, right: Right) -> Self
        ensures { (k : ℕ) → bit result.bits k ≡ (bit self.bits k || k == right_number right) }
    {
        RightSet {
            bits: self.bits | 1 << u8::from(right),
        }
    }

    pub fn has(self, right: Right) -> bool
        ensures { result ≡ bit self.bits (right_number right) }
    {
        (self.bits >> u8::from(right)) & 1 == 1
    }

    pub fn union(self, other: Self) -> Self
        ensures { (k : ℕ) → bit result.bits k ≡ (bit self.bits k || bit other.bits k) }
    {
        RightSet {
            bits: self.bits | other.bits,
        }
    }
}

// The number of a set, whose bits are its rights.
impl From<RightSet> for u8 {
    ghost from_gives = { λ s n. n ≡ s.bits };

    fn from(set: RightSet) -> u8 {
        set.bits
    }
}
