// A catalogue loaded for questions about sessions, the rights that an account holds and may grant, and the state of a run.
#![tactic(auto)]

mod lists;
mod loads;
mod marks;
mod models;
mod states;
mod workspaces;

pub use lists::StepList;
pub use models::Model;
pub use models::holding::Rows;
pub use states::RunState;
pub use workspaces::Workspace;
