// The records and refusals of a catalogue as text for people.
pub mod codes;
pub mod entities;
pub mod names;
pub mod numbers;
pub mod records;
