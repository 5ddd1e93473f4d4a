// A layer keeps up to sixteen proposals above a catalogue, in memory that is taken when it is made.
ghost use Rattle.std.specs.Prelude.{◌≤◌, vec_len, vec_capacity};

use crate::proposals::Proposal;
use catalogue::Catalogue;

pub mod building;
pub mod proposing;
pub mod reading;

#[derive(Drop)]
pub struct Layer<C: Catalogue> {
    below: C,
    proposals: Vec<Proposal>,
    ghost room: { 16 ≤ vec_capacity proposals },
    ghost few: { vec_len proposals ≤ 16 },
}
