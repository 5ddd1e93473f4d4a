// Sets of entities as bits.
ghost use Rattle.std.specs.Prelude.{◌≡◌, ℕ, ◌<◌, ◌==◌};
ghost use Rattle.std.specs.Iterator.{at_most};
ghost use Rattle.order.specs.Taken.{TakesBit};
ghost use Rattle.access.specs.Bits.{bit};

// Goes over the bits that stand, from the lowest up.
#[derive(Clone, Copy)]
pub struct Bits(pub u128);

impl Iterator for Bits {
    type Item = usize;

    ghost next_gives = { λ s r t. TakesBit s.0 r t.0 };

    ghost remaining = { λ s. at_most s.0 };

    fn next(&mut self) -> Option<usize> {
        if self.0 == 0 {
            return None;
        }
        let lowest = self.0.trailing_zeros();
        self.0 &= self.0 - 1;
        Some(lowest as usize)
    }
}

// The bit of x alone.
pub fn bit_of(x: usize) -> u128
    requires { x < 128 }
    ensures { (y : ℕ) → bit result y ≡ (y == x) }
{
    1 << x
}

// Whether bit y stands in `bits`; past the end it does not.
pub fn has_bit(bits: u128, y: usize) -> bool
    ensures { result ≡ bit bits y }
{
    y < 128 && (bits >> y) & 1 == 1
}
