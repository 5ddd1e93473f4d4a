// The order of the roles.
ghost use Rattle.std.specs.Prelude.{◌≡◌, ℕ, ◌≤◌, length, Decides};
ghost use Rattle.access.specs.Bits.{bit};
ghost use Rattle.access.specs.Lists.{fits, is_role};
ghost use Rattle.access.specs.Orders.{RoleBelow, Linked, unlinked, role_below};
ghost use Rattle.order.specs.Rows.{leq};

use super::Table;
use crate::bits::bit_of;
use crate::relations::Relation;
use access::{Entity, Kind, Link};
use std::marker::PhantomData;

// The entity that is the role sysadmin.
const SYSADMIN: usize = 2;

// Marks the order of the roles.
pub struct Roles;

// A role is at or below itself, what links lead to from it, and sysadmin.
pub type RoleOrder = Table<Roles>;

// The roles with no links: each is at or below itself and sysadmin.
fn start(entities: &[Entity]) -> Relation
    requires few { length entities.now ≤ 96 }
    ensures elements { (x : ℕ) → bit result.elements x ≡ fits is_role entities.now x }
    ensures table { (x y : ℕ) → leq result.rows x y ≡ unlinked entities.now x y }
{
    let mut relation = Relation::empty();
    for (x, entity) in entities.iter().enumerate() {
        if entity.kind == Kind::Role {
            relation.put(x, bit_of(SYSADMIN));
        }
    }
    relation
}

// Kept: that there are few is a clause, since a slice of the caller's carries no fact, and a wrapper round it is no plainer.
impl RoleOrder {
    // The order that the links give.
    pub fn build(entities: &[Entity], links: &[Link]) -> RoleOrder
        requires few { length entities.now ≤ 96 }
        requires linked { Linked entities.now links.now }
        ensures elements { (x : ℕ) → bit result.relation.elements x ≡ fits is_role entities.now x }
        ensures table { (x y : ℕ) → leq result.relation.rows x y ≡ role_below entities.now links.now x y }
        ensures exact { (x y : ℕ) → Decides (leq result.relation.rows x y) (RoleBelow entities.now links.now x y) }
    {
        let mut relation = start(entities);
        for link in links {
            relation.join(link.lower as usize, link.upper as usize);
        }
        Table {
            relation,
            of: PhantomData,
        }
    }
}
