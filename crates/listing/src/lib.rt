// The exposure of accounts, and the listing of a catalogue.
#![tactic(auto)]

mod digits;
mod exposures;
mod laws;
mod lines;
mod listings;

pub use exposures::exposure;
pub use laws::laws_stand;
pub use listings::listing;
