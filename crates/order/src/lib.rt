// Orders of entity numbers, and what rights are carried along them.
#![tactic(auto)]

mod bits;
mod orders;
mod relations;
mod rows;
mod spreads;
mod tables;
#[cfg(test)]
mod tests;

pub use bits::{Bits, bit_of, has_bit};
pub use orders::Order;
pub use rows::Row;
pub use spreads::spread;
pub use tables::{Entities, EntityOrder, RoleOrder, Roles, Table};

// The most entities that a database has.
const ENTITIES: usize = 96;
