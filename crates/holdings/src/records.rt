// What each principal has and can grant by itself, and what everyone is given.
ghost use Rattle.std.specs.Prelude.{◌≡◌, ℕ, ◌<◌, ◌&&◌, ◌||◌, length, ◌≤◌, ◌==◌, nat_lt};
ghost use Rattle.std.specs.List.{list_any};
ghost use Rattle.access.specs.Bits.{bit};
ghost use Rattle.grid.specs.Grids.{noted};
ghost use Rattle.holdings.specs.Giving.{any_below, has_by, can_by, lets, opens_one, owns_over};
ghost use Rattle.holdings.specs.Rows.{has, can};

use crate::powers::Powers;
use crate::{ENTITIES, PUBLIC};
use access::{Entity, RightRecord};
use grid::Grid;
use order::bit_of;

// The bit of one entity, if there is room for it.
fn entity_bit(entity: u8) -> u128
    ensures { (e : ℕ) → bit result e ≡ (e == entity && nat_lt e 128) }
{
    if entity < 128 {
        bit_of(entity as usize)
    } else {
        0
    }
}

// The bit of a record's entity, if the record has the option.
fn grantable(g: &RightRecord) -> u128
    ensures { (e : ℕ) → bit result e ≡ lets e g.now }
{
    if g.option { entity_bit(g.entity) } else { 0 }
}

// Notes the right of a record, if everyone is given it with the option.
fn note_given(given: &mut Grid<7>, g: &RightRecord)
    ensures { (k e : ℕ) → k < 7 → noted given.new.rows k e ≡ (noted given.old.rows k e || opens_one e k g.now) }
{
    if g.principal == PUBLIC {
        given.add(u8::from(g.right) as usize, grantable(g));
    }
}

// What everyone is given with the option.
pub fn given(records: &[RightRecord]) -> Grid<7>
    ensures { (k e : ℕ) → k < 7 → noted result.rows k e ≡ list_any (opens_one e k) records.now }
{
    let mut given = Grid::empty();
    for g in records {
        note_given(&mut given, g);
    }
    given
}

// Notes the right of a record on what is in its entity.
fn note_record(own: &mut Powers, within: &Grid<ENTITIES>, g: &RightRecord)
    ensures holds { (p k e : ℕ) → k < 7 → has own.new p k e ≡ (has own.old p k e || has_by within.now.rows p k e g.now) }
    ensures grants { (p k e : ℕ) → k < 7 → can own.new p k e ≡ (can own.old p k e || can_by p k e g.now) }
{
    own.give(
        g.principal,
        u8::from(g.right) as usize,
        within.row(g.entity as usize),
        grantable(g),
    );
}

// Notes the rights of records.
fn note_records(own: &mut Powers, within: &Grid<ENTITIES>, records: &[RightRecord])
    ensures holds { (p k e : ℕ) → k < 7 → has own.new p k e ≡ (has own.old p k e || list_any (has_by within.now.rows p k e) records.now) }
    ensures grants { (p k e : ℕ) → k < 7 → can own.new p k e ≡ (can own.old p k e || list_any (can_by p k e) records.now) }
{
    for g in records {
        note_record(own, within, g);
    }
}

// Notes all rights of owners on what is in the entities that they own.
fn note_owners(own: &mut Powers, within: &Grid<ENTITIES>, entities: &[Entity])
    ensures holds { (p k e : ℕ) → k < 7 → has own.new p k e ≡ (has own.old p k e || any_below (owns_over entities.now within.now.rows p e) (length entities.now)) }
    ensures grants { (p k e : ℕ) → k < 7 → can own.new p k e ≡ (can own.old p k e || any_below (owns_over entities.now within.now.rows p e) (length entities.now)) }
{
    for (x, entity) in entities.iter().enumerate() {
        own.give_all(entity.owner, within.row(x));
    }
}

// What each principal has and can grant by itself.
pub fn own(within: &Grid<ENTITIES>, entities: &[Entity], records: &[RightRecord]) -> Powers
    ensures holds { (p k e : ℕ) → k < 7 → has result p k e ≡ (any_below (owns_over entities.now within.now.rows p e) (length entities.now) || list_any (has_by within.now.rows p k e) records.now) }
    ensures grants { (p k e : ℕ) → k < 7 → can result p k e ≡ (any_below (owns_over entities.now within.now.rows p e) (length entities.now) || list_any (can_by p k e) records.now) }
{
    let mut own = Powers::none();
    note_owners(&mut own, within, entities);
    note_records(&mut own, within, records);
    own
}
