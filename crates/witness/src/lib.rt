// A list of steps by which a session comes to a right, of which no step can be left out.
#![tactic(auto)]

mod handing;
mod plays;
mod shortening;
mod witnesses;

pub use witnesses::witness;
