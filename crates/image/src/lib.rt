// The image: a book's five lists as bytes.
#![tactic(auto)]

mod bodies;
mod contents;
mod images;
mod records;
mod tables;
mod writer;

pub use images::Image;
pub use images::reader::read;
pub use writer::write;
