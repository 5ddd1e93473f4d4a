// What the sessions of an account can come to, as sets of entities and with no list of steps.
#![tactic(auto)]

mod adding;
mod beginning;
mod entering;
mod extents;
mod following;
mod planting;
mod sweeping;

pub use extents::Extent;
