// The interface of catalogues, which lists one may mean, and how records are judged and found.
#![tactic(auto)]

mod catalogues;
mod entities;
mod lines;
mod links;
mod listed;
mod names;
mod records;
mod tables;

pub use catalogues::{Catalogue, judge_member, judge_right};
pub use entities::judge_entity;
pub use lines::judge_line;
pub use links::judge_link;
pub use listed::Listed;
pub use names::ListName;
pub use tables::{Same, find, kind_at, stands};
