// An order as a table.
ghost use Rattle.std.specs.Prelude.{◌≡◌, ℕ, true, ⊤};
ghost use Rattle.access.specs.Bits.{bit};
ghost use Rattle.order.specs.Rows.{leq, Transitive, Antisymmetric};
ghost use Rattle.std.proofs.lemmas.Bool.{and_from};

mod places;
mod roles;

use crate::orders::Order;
use crate::relations::Relation;
pub use places::{Entities, EntityOrder};
pub use roles::{RoleOrder, Roles};
use std::alloc::AllocError;
use std::marker::PhantomData;

// A relation that is an order; `K` says of what.
pub struct Table<K> {
    relation: Relation,
    of: PhantomData<K>,
    ghost reflexive: { (x : ℕ) → bit relation.elements x ≡ true → leq relation.rows x x ≡ true },
    ghost transitive: { Transitive relation.rows },
    ghost antisymmetric: { Antisymmetric relation.rows },
}

// Kept: `Clone` and `Copy` cannot be derived on a struct with a type parameter and ghost fields.
impl<K> Clone for Table<K> {
    ghost is_clone = { λ x y. y ≡ x };

    ghost is_infallible = { λ _. ⊤ };

    fn clone(&self) -> Result<Self, AllocError> {
        Ok(*self)
    }
}

impl<K> Copy for Table<K> {}

impl<K> Order for Table<K> {
    ghost on = { λ o x. bit o.relation.elements x ≡ true };

    ghost below = { λ o x y. leq o.relation.rows x y ≡ true };

    ghost reflexive = { λ o x h. o.reflexive x h };

    ghost transitive = { λ o x y z p q. o.transitive (x, y, z) (and_from _ _ p q) };

    ghost antisymmetric = { λ o x y p q. o.antisymmetric x y (and_from _ _ p q) };

    fn above(&self, x: usize) -> u128 {
        self.relation.at(x)
    }
}
