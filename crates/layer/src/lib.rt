// Proposals above any catalogue.
#![tactic(auto)]

mod changes;
mod layers;
mod proposals;
mod text;

pub use changes::{Change, Response, apply};
pub use layers::Layer;
pub use proposals::Proposal;
