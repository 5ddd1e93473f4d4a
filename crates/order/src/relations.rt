// Relations of entities, as rows of bits.
ghost use Rattle.std.specs.Prelude.{◌≡◌, ℕ, ◌<◌, false, ◌&&◌, ◌||◌, ◌==◌};
ghost use Rattle.access.specs.Bits.{bit};
ghost use Rattle.order.specs.Rows.{leq};

use crate::ENTITIES;
use crate::bits::{bit_of, has_bit};

// Bit x of `elements` says that x is an element, and bit y of row x that x is at or below y.
#[derive(Clone, Copy)]
pub struct Relation {
    elements: u128,
    rows: [u128; ENTITIES],
}

impl Relation {
    pub fn empty() -> Self
        ensures elements { (x : ℕ) → bit result.elements x ≡ false }
        ensures rows { (x y : ℕ) → leq result.rows x y ≡ false }
    {
        Relation {
            elements: 0,
            rows: [0; ENTITIES],
        }
    }

    // The row of x, which is empty past the end.
    pub fn at(&self, x: usize) -> u128
        ensures { (y : ℕ) → bit result y ≡ leq self.now.rows x y }
    {
        self.rows.get(x).copied().unwrap_or(0)
    }

    // Makes x an element, at or below itself and what `above` has.
    pub fn put(&mut self, x: usize, above: u128)
        requires { x < 96 }
        ensures elements { (y : ℕ) → bit self.new.elements y ≡ (bit self.old.elements y || y == x) }
        ensures rows { (z y : ℕ) → leq self.new.rows z y ≡ (leq self.old.rows z y || (z == x && (y == x || bit above y))) }
    {
        let own = bit_of(x);
        self.elements |= own;
        self.rows[x] |= own | above;
    }

    // Puts `lower` below `upper`: each row that has the one gets the row of the other.
    pub fn join(&mut self, lower: usize, upper: usize)
        ensures elements { self.new.elements ≡ self.old.elements }
        ensures rows { (x y : ℕ) → leq self.new.rows x y ≡ (leq self.old.rows x y || (leq self.old.rows x lower && leq self.old.rows upper y)) }
    {
        let more = self.at(upper);
        for row in self.rows.iter_mut() {
            if has_bit(*row, lower) {
                *row |= more;
            }
        }
    }
}
