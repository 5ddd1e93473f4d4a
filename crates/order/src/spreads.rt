// What rights are carried along an order.
ghost use Rattle.std.specs.Prelude.{◌≡◌, ℕ, ◌<◌, ◌≤◌, true, false, Decides};
ghost use Rattle.access.specs.Bits.{bit};
ghost use Rattle.access.specs.Sets.{told};
ghost use Rattle.order.specs.Spreads.{Carried};

use crate::ENTITIES;
use crate::bits::Bits;
use crate::orders::Order;
use crate::rows::Row;
use access::RightSet;

// The rights that `base` has at x and at the places above it; `places` has every place where it has a right.
fn gather<O: Order>(order: &O, base: &Row, places: u128, x: usize) -> RightSet
    requires { (y k : ℕ) → told base.now.sets y k ≡ true → bit places y ≡ true }
    ensures { (k : ℕ) → Decides (bit result.bits k) (Carried (O.below order.now) (told base.now.sets) 96 x k) }
{
    let mut all = RightSet::empty();
    for y in Bits(order.above(x) & places) {
        all = all.union(base.at(y));
    }
    all
}

// Each place gets the rights that `base` has at it and at the places above it.
pub fn spread<O: Order>(order: &O, base: &Row) -> Row
    ensures tells { (x k : ℕ) → x < 96 → Decides (told result.sets x k) (Carried (O.below order.now) (told base.now.sets) 96 x k) }
    ensures past { (x k : ℕ) → 96 ≤ x → told result.sets x k ≡ false }
{
    let places = base.places();
    let mut row = Row::empty();
    if places == 0 {
        return row;
    }
    // Kept: tried with `array::from_fn`, and the proof did not close.
    for x in 0..ENTITIES {
        row.add(x, gather(order, base, places, x));
    }
    row
}
