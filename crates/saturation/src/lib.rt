// What a session of an account can come to: a run that no step adds anything to.
#![tactic(auto)]

mod following;
mod footholds;
mod keeping;
mod lending;
mod numbers;
mod objects;
mod planting;
mod stepping;
mod sweeping;
mod taking;
mod trying;

pub use sweeping::saturate;

// The role that everyone is in.
const PUBLIC: u8 = 1;
