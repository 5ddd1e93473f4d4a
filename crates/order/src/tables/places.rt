// The order of the entities by their places.
ghost use Rattle.std.specs.Prelude.{◌≡◌, ℕ, ◌≤◌, length, Decides};
ghost use Rattle.access.specs.Bits.{bit};
ghost use Rattle.access.specs.Lists.{stands};
ghost use Rattle.access.specs.Orders.{Within, Rooted};
ghost use Rattle.order.specs.Rows.{leq};

use super::Table;
use crate::relations::Relation;
use access::Entity;
use std::marker::PhantomData;

// Marks the order of the entities.
pub struct Entities;

// An entity is at or below what is met by going from it to parents.
pub type EntityOrder = Table<Entities>;

// What the parents say.
fn places(entities: &[Entity]) -> Relation
    requires few { length entities.now ≤ 96 }
    requires rooted { Rooted entities.now }
    ensures elements { (x : ℕ) → bit result.elements x ≡ stands entities.now x }
    ensures exact { (x y : ℕ) → Decides (leq result.rows x y) (Within entities.now x y) }
{
    let mut relation = Relation::empty();
    for (x, entity) in entities.iter().enumerate() {
        relation.put(x, relation.at(entity.parent as usize));
    }
    relation
}

// Kept: that there are few is a clause, since a slice of the caller's carries no fact, and a wrapper round it is no plainer.
impl EntityOrder {
    // The order that the parents give.
    pub fn build(entities: &[Entity]) -> EntityOrder
        requires few { length entities.now ≤ 96 }
        requires rooted { Rooted entities.now }
        ensures elements { (x : ℕ) → bit result.relation.elements x ≡ stands entities.now x }
        ensures exact { (x y : ℕ) → Decides (leq result.relation.rows x y) (Within entities.now x y) }
    {
        Table {
            relation: places(entities),
            of: PhantomData,
        }
    }
}
