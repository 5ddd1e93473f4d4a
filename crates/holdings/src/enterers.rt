// Which accounts may enter each object by the catalogue.
ghost use Rattle.std.specs.Prelude.{◌≡◌, ℕ, ◌<◌, true, ◌&&◌, ◌||◌, ◌==◌};
ghost use Rattle.access.specs.Bits.{bit};
ghost use Rattle.access.specs.Numbers.{right_number};
ghost use Rattle.access.specs.Places.{place_of};
ghost use Rattle.access.specs.declared.code.Object.{Object};
ghost use Rattle.grid.specs.Grids.{noted};
ghost use Rattle.lookup.specs.Tables.{slot_of, sort_number};
ghost use Rattle.runs.specs.Standing.{entry_right};
ghost use Rattle.holdings.specs.Giving.{enters_by};
ghost use Rattle.holdings.specs.Rows.{has};

use crate::powers::Powers;
use grid::{Grid, both};
use order::{Bits, bit_of};

// The right that lets an account enter the objects of a sort.
pub fn right_of(sort: usize) -> usize
    requires { sort < 5 }
    ensures small { result < 7 }
    ensures right { (x : Object) → sort_number x ≡ sort → right_number (entry_right x) ≡ result }
{
    match sort {
        0 | 4 => 5,
        _ => sort,
    }
}

// Notes an account with the objects of a sort in these places.
fn note_places(enterers: &mut Grid<480>, sort: usize, places: u128, account: u8)
    requires sort { sort < 5 }
    requires account { account < 128 }
    requires places { (e : ℕ) → bit places e ≡ true → e < 96 }
    ensures { (x : Object) (v : ℕ) → place_of x < 96 → noted enterers.new.rows (slot_of x) v ≡ (noted enterers.old.rows (slot_of x) v || (bit places (place_of x) && (sort_number x == sort && v == account))) }
{
    let own = bit_of(account as usize);
    for place in Bits(places) {
        enterers.add(place + 96 * sort, own);
    }
}

// Notes an account with the objects that it may enter.
fn note_enterer(enterers: &mut Grid<480>, holds: &Powers, objects: &Grid<5>, account: u8)
    requires account { account < 128 }
    requires places { (x : Object) → noted objects.now.rows (sort_number x) (place_of x) ≡ true → place_of x < 96 }
    ensures { (x : Object) (v : ℕ) → place_of x < 96 → noted enterers.new.rows (slot_of x) v ≡ (noted enterers.old.rows (slot_of x) v || (v == account && enters_by (has holds.now) objects.now.rows v x)) }
{
    for sort in 0..5 {
        let open = holds.held(account, right_of(sort));
        let places = both(open, objects.row(sort));
        note_places(enterers, sort, places, account);
    }
}

// For each object the accounts that may enter it.
pub fn enterers(holds: &Powers, objects: &Grid<5>, accounts: u128) -> Grid<480>
    requires { (x : Object) → noted objects.now.rows (sort_number x) (place_of x) ≡ true → place_of x < 96 }
    ensures { (x : Object) (v : ℕ) → place_of x < 96 → noted result.rows (slot_of x) v ≡ (bit accounts v && enters_by (has holds.now) objects.now.rows v x) }
{
    let mut enterers = Grid::empty();
    for account in Bits(accounts) {
        note_enterer(&mut enterers, holds, objects, account as u8);
    }
    enterers
}
