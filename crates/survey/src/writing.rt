// How a row is written.
ghost use Rattle.std.specs.Prelude.{◌≡◌, ℕ, ◌<◌, true, ◌&&◌, ◌||◌, ◌==◌, slice_index};
ghost use Rattle.access.specs.declared.entities.Kind.TheVariants.{Account};
ghost use Rattle.access.specs.Bits.{bit};
ghost use Rattle.holdings.specs.Told.{Told};
ghost use Rattle.runs.specs.Standing.{Is};
ghost use Rattle.session.specs.Models.{lists_of};
ghost use Rattle.survey.specs.Used.{IsRow};

use extent::Extent;
use holdings::Holdings;
use order::Bits;
use rows::WIDTH;
use session::Model;

// Adds right k to the bytes of these entities.
fn put_right(row: &mut [u8; WIDTH], k: usize, entities: u128)
    requires right { k < 7 }
    requires entities { (e : ℕ) → bit entities e ≡ true → e < 96 }
    ensures { (e j : ℕ) → bit (slice_index row.new e) j ≡ (bit (slice_index row.old e) j || (j == k && bit entities e)) }
{
    for e in Bits(entities) {
        row[e] |= 1 << k;
    }
}

// The row of an account of a loaded catalogue, whose tables these are.
pub fn row_of(model: &Model, tables: &Holdings, account: u8) -> [u8; WIDTH]
    requires account { Is (lists_of model.now) Account account }
    requires told { Told (lists_of model.now) tables.now }
    ensures { IsRow (lists_of model.now) account result }
{
    let extent = Extent::of(model, tables, account);
    let mut row = [0; WIDTH];
    for k in 0..7 {
        put_right(&mut row, k, extent.uses(tables, k));
    }
    row
}
