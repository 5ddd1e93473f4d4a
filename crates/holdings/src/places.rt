// What is at or in each entity.
ghost use Rattle.std.specs.Prelude.{◌≡◌, ℕ, ◌<◌, ◌&&◌, ◌||◌, ◌==◌, nat_lt, Decides};
ghost use Rattle.access.specs.Bits.{bit};
ghost use Rattle.access.specs.Orders.{Within};
ghost use Rattle.grid.specs.Grids.{noted};
ghost use Rattle.session.specs.Models.{lists_of};

use crate::ENTITIES;
use grid::Grid;
use order::{Bits, bit_of};
use session::Model;

// Notes entity x in each of `above`.
fn note_in(within: &mut Grid<ENTITIES>, above: u128, x: usize)
    requires { x < 128 }
    ensures { (d e : ℕ) → noted within.new.rows d e ≡ (noted within.old.rows d e || (bit above d && (nat_lt d 96 && e == x))) }
{
    let own = bit_of(x);
    for d in Bits(above) {
        within.add(d, own);
    }
}

// What is at or in each entity.
pub fn within(model: &Model) -> Grid<ENTITIES>
    ensures { (d e : ℕ) → Decides (noted result.rows d e) (Within (lists_of model.now).entities e d) }
{
    let mut within = Grid::empty();
    for x in 0..model.entities().len() {
        note_in(&mut within, model.above_place(x), x);
    }
    within
}
