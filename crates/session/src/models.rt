// A catalogue that is loaded: its five lists, and its two orders as tables.
ghost use Rattle.std.specs.Prelude.{◌≤◌, vec_capacity};
ghost use Rattle.access.specs.Lists.{Lists};
ghost use Rattle.session.specs.Tabled.{Tabled};

use access::{Entity, Line, Link, Member, RightRecord};
use order::{EntityOrder, RoleOrder};

pub mod holding;
pub mod loading;
pub mod reading;

// There is room for every list that a sound catalogue can have; the lists are sound, and the tables tell both orders.
#[derive(Drop)]
pub struct Model {
    entities: Vec<Entity>,
    links: Vec<Link>,
    rights: Vec<RightRecord>,
    members: Vec<Member>,
    lines: Vec<Line>,
    places: EntityOrder,
    roles: RoleOrder,
    ghost room: { (96 ≤ vec_capacity entities) × (64 ≤ vec_capacity links) × (4096 ≤ vec_capacity rights) × (4096 ≤ vec_capacity members) × (4096 ≤ vec_capacity lines) },
    ghost ready: { ∥ Tabled (record { entities = entities.items; links = links.items; rights = rights.items; members = members.items; lines = lines.items }) places.relation.rows roles.relation.rows ∥₁ },
}
