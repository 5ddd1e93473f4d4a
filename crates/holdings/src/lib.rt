// What accounts and roles hold and may grant by a catalogue, as sets of entities.
#![tactic(auto)]

mod calls;
mod carried;
mod enterers;
mod kinds;
mod places;
mod powers;
mod records;
mod tables;

pub use calls::Call;
pub use enterers::right_of;
pub use powers::Powers;
pub use tables::Holdings;

// The most entities that a database has.
const ENTITIES: usize = 96;

// The role that everyone is in.
const PUBLIC: u8 = 1;
