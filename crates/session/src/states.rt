// The state of a run, as what it adds to a catalogue.
ghost use Rattle.std.specs.Prelude.{◌≤◌, vec_capacity};

use access::{Line, Member, RightRecord};
use lookup::Marks;
use runs::{Entry, Step};

pub mod adding;

// The accounts acted as, the records, the planted lines, the entered pairs and the steps, each in the order in which they came.
// Who opened the session, and tables of what stands; there is room for the opener and for 4,096 steps.
#[derive(Drop)]
pub struct RunState {
    pub opener: u8,
    pub acted: Vec<u8>,
    pub grants: Vec<RightRecord>,
    pub joins: Vec<Member>,
    pub planted: Vec<Line>,
    pub entered: Vec<Entry>,
    pub steps: Vec<Step>,
    pub marks: Marks,
    ghost room: { (4097 ≤ vec_capacity acted) × (4096 ≤ vec_capacity grants) × (4096 ≤ vec_capacity joins) × (4096 ≤ vec_capacity planted) × (4096 ≤ vec_capacity entered) × (4096 ≤ vec_capacity steps) },
}
