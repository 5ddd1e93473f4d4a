// Replay of a list of steps: whether each is allowed, and whether a right stands at the end.
#![tactic(auto)]

mod courses;
mod laws;
mod questions;
mod replays;

pub use courses::Course;
pub use laws::laws_stand;
pub use questions::{Question, Sense, judge_question};
pub use replays::replay;
