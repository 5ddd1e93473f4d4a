// Sets of numbers as bits, and tables of them.
#![tactic(auto)]

mod grids;
mod sets;

pub use grids::Grid;
pub use sets::{both, either, without};
