// Tables of what principals have.
ghost use Rattle.std.specs.Prelude.{◌≡◌, ℕ, ◌<◌, false, ◌&&◌, ◌||◌, ◌==◌};
ghost use Rattle.access.specs.Bits.{bit};
ghost use Rattle.holdings.specs.Giving.{same_one};
ghost use Rattle.holdings.specs.Rows.{has, can};

use grid::Grid;

// For each principal and each right, on which entities it has it, and on which it can grant it.
#[derive(Clone, Copy)]
pub struct Powers {
    holds: Grid<672>,
    grants: Grid<672>,
}

impl Powers {
    // Nobody has anything.
    pub fn none() -> Self
        ensures holds { (p k e : ℕ) → has result p k e ≡ false }
        ensures grants { (p k e : ℕ) → can result p k e ≡ false }
    {
        Powers {
            holds: Grid::empty(),
            grants: Grid::empty(),
        }
    }

    // The entities on which a principal has right k.
    pub fn held(&self, principal: u8, k: usize) -> u128
        requires { k < 7 }
        ensures { (e : ℕ) → bit result e ≡ has self.now principal k e }
    {
        self.holds.row(principal as usize * 7 + k)
    }

    // The entities on which a principal can grant right k.
    pub fn granted(&self, principal: u8, k: usize) -> u128
        requires { k < 7 }
        ensures { (e : ℕ) → bit result e ≡ can self.now principal k e }
    {
        self.grants.row(principal as usize * 7 + k)
    }

    // Gives a principal right k on entities, and lets it grant the right on others.
    pub fn give(&mut self, principal: u8, k: usize, on: u128, grantable: u128)
        requires { k < 7 }
        ensures holds { (p j e : ℕ) → j < 7 → has self.new p j e ≡ (has self.old p j e || ((same_one p principal && j == k) && bit on e)) }
        ensures grants { (p j e : ℕ) → j < 7 → can self.new p j e ≡ (can self.old p j e || ((same_one p principal && j == k) && bit grantable e)) }
    {
        let row = principal as usize * 7 + k;
        self.holds.add(row, on);
        self.grants.add(row, grantable);
    }

    // Gives a principal every right on entities, and lets it grant them.
    pub fn give_all(&mut self, principal: u8, on: u128)
        ensures holds { (p j e : ℕ) → j < 7 → has self.new p j e ≡ (has self.old p j e || (same_one p principal && bit on e)) }
        ensures grants { (p j e : ℕ) → j < 7 → can self.new p j e ≡ (can self.old p j e || (same_one p principal && bit on e)) }
    {
        for k in 0..7 {
            self.give(principal, k, on, on);
        }
    }

    // Gives a principal what another one has by `from`.
    pub fn take(&mut self, principal: u8, from: &Powers, other: u8)
        ensures holds { (p j e : ℕ) → j < 7 → has self.new p j e ≡ (has self.old p j e || (same_one p principal && has from.now other j e)) }
        ensures grants { (p j e : ℕ) → j < 7 → can self.new p j e ≡ (can self.old p j e || (same_one p principal && can from.now other j e)) }
    {
        for k in 0..7 {
            self.give(principal, k, from.held(other, k), from.granted(other, k));
        }
    }
}
