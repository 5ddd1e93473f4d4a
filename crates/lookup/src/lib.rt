// Tables that tell at once what stands in the state of a run.
#![tactic(auto)]

mod records;
mod tables;

pub use tables::{Marks, slot, sort};

// The most entities that a database has.
const ENTITIES: usize = 96;
