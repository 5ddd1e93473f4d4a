// Whether a step fits what an account holds and may grant, and what stands in a loaded catalogue.
#![tactic(auto)]

mod actors;
mod standing;

pub use actors::{Actor, tells};
pub use standing::{is_kind, is_object, one_owner};
