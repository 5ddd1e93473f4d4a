// Any list of changes, and the rows of two accounts through the layer and the book that they come to.
#![tactic(auto)]

mod assessing;

pub use assessing::{Assessment, assess};
