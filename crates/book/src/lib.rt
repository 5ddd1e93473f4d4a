// A book: the catalogue that building calls fill.
#![tactic(auto)]

mod books;
mod calls;
mod fills;
mod placing;
mod text;

pub use books::Book;
pub use calls::{Call, apply};
pub use fills::{Gathers, fill};
