// Building calls by their numbers, those that build the laboratory, books of calls, questions, and steps in the laboratory.
#![tactic(auto)]

mod books;
mod calls;
mod laboratory;
mod numbers;
mod steps;

pub use books::{add_calls, build, pair_calls};
pub use calls::{declare, grant, join, line, link, procedure, triggers};
pub use laboratory::{laboratory_calls, without_alter};
pub use numbers::{ALTER, EXECUTE, HOLD, IMPERSONATE, INSERT, SELECT, USE, question};
pub use steps::{CALLED, PLANTED, STEPS, TRIGGERS};
