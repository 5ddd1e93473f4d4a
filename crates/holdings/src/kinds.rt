// Which entities are of which kind, and who owns what.
ghost use Rattle.std.specs.Prelude.{◌≡◌, ℕ, ◌<◌, ◌≤◌, ◌&&◌, Some, length, ◌==◌, nat_lt};
ghost use Rattle.std.specs.List.{slice_get, list_any};
ghost use Rattle.access.specs.Bits.{bit};
ghost use Rattle.access.specs.declared.code.Object.{Object};
ghost use Rattle.access.specs.Places.{place_of};
ghost use Rattle.grid.specs.Grids.{noted};
ghost use Rattle.lookup.specs.Tables.{sort_number};
ghost use Rattle.holdings.specs.Giving.{is_kind, is_host, is_object, owner_is};

use crate::ENTITIES;
use access::{Entity, Kind, Mode};
use grid::Grid;
use order::bit_of;

// The entities of one kind.
pub fn of_kind(entities: &[Entity], kind: Kind) -> u128
    requires { length entities.now ≤ 96 }
    ensures { (x : ℕ) → bit result x ≡ is_kind kind (slice_get entities.now x) }
{
    let mut bits = 0;
    for (x, entity) in entities.iter().enumerate() {
        if entity.kind == kind {
            bits |= bit_of(x);
        }
    }
    bits
}

// Whether an entity is a container of mode 1.
fn can_host(entity: &Entity) -> bool
    ensures { result ≡ is_host (Some entity.now) }
{
    entity.kind == Kind::Container && entity.mode == Mode::Parent
}

// The containers of mode 1.
fn hosts(entities: &[Entity]) -> u128
    requires { length entities.now ≤ 96 }
    ensures { (x : ℕ) → bit result x ≡ is_host (slice_get entities.now x) }
{
    let mut bits = 0;
    for (x, entity) in entities.iter().enumerate() {
        if can_host(entity) {
            bits |= bit_of(x);
        }
    }
    bits
}

// The places of the objects of each sort.
pub fn objects(entities: &[Entity]) -> Grid<5>
    requires { length entities.now ≤ 96 }
    ensures { (x : Object) → noted result.rows (sort_number x) (place_of x) ≡ is_object entities.now x }
{
    let tables = of_kind(entities, Kind::Table);
    let mut objects = Grid::empty();
    objects.add(0, of_kind(entities, Kind::Procedure));
    objects.add(1, tables);
    objects.add(2, tables);
    objects.add(3, tables);
    objects.add(4, hosts(entities));
    objects
}

// What each principal owns.
pub fn owned(entities: &[Entity]) -> Grid<ENTITIES>
    requires { length entities.now ≤ 96 }
    ensures { (o e : ℕ) → noted result.rows o e ≡ (owner_is o (slice_get entities.now e) && nat_lt o 96) }
{
    let mut owned = Grid::empty();
    for (x, entity) in entities.iter().enumerate() {
        owned.add(entity.owner as usize, bit_of(x));
    }
    owned
}

// Those that own something.
pub fn owners(entities: &[Entity]) -> u128
    ensures { (o : ℕ) → o < 96 → bit result o ≡ list_any (λ x. o == x.owner) entities.now }
{
    let mut owners = Grid::<1>::empty();
    for entity in entities {
        owners.put(0, entity.owner);
    }
    owners.row(0)
}
