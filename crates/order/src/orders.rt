// What an order of entities is.
ghost use Rattle.std.specs.Prelude.{◌≡◌, ℕ, Decides};
ghost use Rattle.access.specs.Bits.{bit};

use crate::bits::has_bit;

// An order on entity numbers: `below o x y` says that x is at or below y; `on o x` that x is one of its elements.
pub trait Order {
    ghost on: { Self → ℕ → Type 0 };

    ghost below: { Self → ℕ → ℕ → Type 0 };

    // The elements at or above x, as bits.
    fn above(&self, x: usize) -> u128
        ensures { (y : ℕ) → Decides (bit result y) (below self.now x y) };

    // Whether x is at or below y.
    fn at_or_below(&self, x: usize, y: usize) -> bool
        ensures { Decides result (below self.now x y) }
    {
        has_bit(self.above(x), y)
    }

    ghost reflexive: { (o : Self) (x : ℕ) → on o x → below o x x };

    ghost transitive: { (o : Self) (x y z : ℕ) → below o x y → below o y z → below o x z };

    ghost antisymmetric: { (o : Self) (x y : ℕ) → below o x y → below o y x → x ≡ y };
}
