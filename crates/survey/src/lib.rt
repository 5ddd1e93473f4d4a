// The rows of accounts: what a session of each can come to use on every entity, and which accounts can come to act as others.
#![tactic(auto)]

mod accounts;
mod comparing;
mod laws;
mod reaching;
mod writing;

pub use accounts::{is_account, judge_accounts};
pub use comparing::Comparison;
pub use laws::laws_stand;
pub use reaching::{Pair, compare, reach};
pub use writing::row_of;
