// A set of rights for each entity.
ghost use Rattle.std.specs.Prelude.{◌≡◌, ℕ, true, false, ◌&&◌, ◌||◌, ◌==◌, nat_lt};
ghost use Rattle.access.specs.Bits.{bit};
ghost use Rattle.access.specs.Sets.{told};

use crate::ENTITIES;
use access::RightSet;

// The set at x is that of entity x.
#[derive(Clone, Copy)]
pub struct Row {
    sets: [RightSet; ENTITIES],
}

impl Row {
    pub fn empty() -> Self
        ensures { (x k : ℕ) → told result.sets x k ≡ false }
    {
        Row {
            sets: [RightSet::empty(); ENTITIES],
        }
    }

    // The set at x, which is empty past the end.
    pub fn at(&self, x: usize) -> RightSet
        ensures { (k : ℕ) → bit result.bits k ≡ told self.now.sets x k }
    {
        self.sets.get(x).copied().unwrap_or(RightSet::empty())
    }

    // The places that have some right, as bits.
    pub fn places(&self) -> u128
        ensures { (x k : ℕ) → told self.now.sets x k ≡ true → bit result x ≡ true }
    {
        let mut places = 0;
        let mut place = 1;
        for set in &self.sets {
            if u8::from(*set) != 0 {
                places |= place;
            }
            place <<= 1;
        }
        places
    }

    // Adds the rights of `more` at x; past the end nothing changes.
    pub fn add(&mut self, x: usize, more: RightSet)
        ensures { (y k : ℕ) → told self.new.sets y k ≡ (told self.old.sets y k || ((y == x && nat_lt x 96) && bit more.bits k)) }
    {
        // Kept: std says nothing of an array after a write through `get_mut` or `iter_mut().nth`, so no proof closes
        if x < self.sets.len() {
            self.sets[x] = self.sets[x].union(more);
        }
    }
}
