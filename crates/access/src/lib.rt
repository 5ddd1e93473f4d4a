// The words of the access model: entities, rights, code, refusals, and sets of rights.
#![tactic(auto)]

mod code;
mod entities;
mod exact;
mod numbers;
mod refusals;
mod rights;
mod roles;
mod sets;
mod text;

pub use code::{Action, Event, Line, Object, Runner};
pub use entities::{Entity, Kind, Mode};
pub use exact::{Exact, is_in};
pub use numbers::{EntityNumbers, LineNumbers, ObjectNumbers, QuestionNumbers, RightNumbers};
pub use refusals::Refusal;
pub use rights::{Right, RightRecord, option_listed};
pub use roles::{Link, Member};
pub use sets::RightSet;
pub use text::codes::RefusalCode;
