// The steps of a database session, and the laws of the runs that they make.
#![tactic(auto)]

mod laws;
mod steps;
mod text;

pub use laws::{laboratory_stands, laws_stand};
pub use steps::{Entry, Step, worker};
