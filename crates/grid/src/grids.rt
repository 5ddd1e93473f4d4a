// Rows of bits, and what is in them.
ghost use Rattle.std.specs.Prelude.{◌≡◌, ℕ, ◌<◌, true, false, ◌&&◌, ◌||◌, ◌==◌, nat_lt};
ghost use Rattle.access.specs.Bits.{bit};
ghost use Rattle.grid.specs.Grids.{noted};

// N rows of 128 bits.
#[derive(Clone, Copy)]
pub struct Grid<const N: usize> {
    rows: [u128; N],
}

impl<const N: usize> Grid<N> {
    // A table with no bit set.
    pub fn empty() -> Self
        ensures { (x y : ℕ) → noted result.rows x y ≡ false }
    {
        Grid { rows: [0; N] }
    }

    // Whether bit y of row x is set; past the end none is.
    pub fn has(&self, x: usize, y: u8) -> bool
        ensures { result ≡ noted self.now.rows x y }
    {
        let row = self.row(x);
        y < 128 && (row >> y) & 1 == 1
    }

    // Row x as bits; past the end there are none.
    pub fn row(&self, x: usize) -> u128
        ensures { (y : ℕ) → bit result y ≡ noted self.now.rows x y }
    {
        self.rows.get(x).copied().unwrap_or(0)
    }

    // Adds bits to row x; past the end nothing changes.
    pub fn add(&mut self, x: usize, more: u128)
        ensures { (z y : ℕ) → noted self.new.rows z y ≡ (noted self.old.rows z y || ((z == x && nat_lt x N) && bit more y)) }
    {
        if x < N {
            self.rows[x] |= more;
        }
    }

    // Sets bit y of row x; past the end nothing changes.
    pub fn put(&mut self, x: usize, y: u8)
        ensures { (z k : ℕ) → z < N → k < 128 → noted self.new.rows z k ≡ (noted self.old.rows z k || (z == x && k == y)) }
    {
        if x < N && y < 128 {
            self.rows[x] |= 1 << y;
        }
    }
}
