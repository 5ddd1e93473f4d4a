// A book holds its five lists in memory that is taken when it is made.
ghost use Rattle.std.specs.Prelude.{◌≤◌, vec_capacity};
ghost use Rattle.access.specs.Lists.{Lists};
ghost use Rattle.catalogue.specs.Sound.{Kept};

use access::{Entity, Line, Link, Member, RightRecord};

pub mod building;
pub mod reading;

// There is room for all that a book may hold, and its lists are such as a book may hold.
#[derive(Drop)]
pub struct Book {
    entities: Vec<Entity>,
    links: Vec<Link>,
    rights: Vec<RightRecord>,
    members: Vec<Member>,
    lines: Vec<Line>,
    ghost room: { (96 ≤ vec_capacity entities) × (64 ≤ vec_capacity links) × (256 ≤ vec_capacity rights) × (128 ≤ vec_capacity members) × (256 ≤ vec_capacity lines) },
    ghost kept: { ∥ Kept (record { entities = entities.items; links = links.items; rights = rights.items; members = members.items; lines = lines.items }) ∥₁ },
}
