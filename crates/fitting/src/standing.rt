// What stands in a loaded catalogue, and what fits its place.
ghost use Rattle.std.specs.Prelude.{◌≡◌, Some, Decides};
ghost use Rattle.std.specs.List.{slice_get};
ghost use Rattle.access.specs.declared.entities.Entity.{Entity};
ghost use Rattle.access.specs.declared.entities.Kind.TheVariants.{Account, Container, Role};
ghost use Rattle.access.specs.declared.entities.Mode.TheVariants.{Parent};
ghost use Rattle.runs.specs.Standing.{Is, IsObject, OneOwner, Principal, Proper, Stands};
ghost use Rattle.session.specs.Models.{lists_of};

use access::{Action, Entity, Kind, Member, Mode, Object, RightRecord};
use catalogue::{kind_at, stands as stands_in};
use session::Model;

fn stands(model: &Model, n: u8) -> bool
    ensures { Decides result (Stands (lists_of model.now) n) }
{
    stands_in(model.entities(), n)
}

pub fn is_kind(model: &Model, n: u8, kind: Kind) -> bool
    ensures { Decides result (Is (lists_of model.now) kind n) }
{
    kind_at(model.entities(), n) == Some(kind)
}

// The entity of a number, or none past the end.
fn entity_at(model: &Model, n: u8) -> Option<Entity>
    ensures { result ≡ slice_get (lists_of model.now).entities n }
{
    model.entities().get(n as usize).copied()
}

// Whether a session can create in the entity.
fn is_parent(model: &Model, n: u8) -> bool
    ensures { Decides result ((e : Entity) × (slice_get (lists_of model.now).entities n ≡ Some e) × (e.kind ≡ Container) × (e.mode ≡ Parent)) }
{
    entity_at(model, n).is_some_and(|e| e.kind == Kind::Container && e.mode == Mode::Parent)
}

pub fn is_object(model: &Model, x: Object) -> bool
    ensures { Decides result (IsObject (lists_of model.now) x) }
{
    match x {
        Object::Procedure(n) => is_kind(model, n, Kind::Procedure),
        Object::Triggers(n, _) => is_kind(model, n, Kind::Table),
        Object::Created(n) => is_parent(model, n),
    }
}

// Whether the entities of two objects have one owner.
#[tactic(auto, using(crate::proofs::Deciding::owner_told))]
pub fn one_owner(model: &Model, x: Object, y: Object) -> bool
    ensures { Decides result (OneOwner (lists_of model.now) x y) }
{
    match (entity_at(model, x.place()), entity_at(model, y.place())) {
        (Some(a), Some(b)) => a.owner == b.owner,
        _ => false,
    }
}

fn is_principal(model: &Model, n: u8) -> bool
    ensures { Decides result (Principal (lists_of model.now) n) }
{
    kind_at(model.entities(), n).is_some_and(Kind::is_principal)
}

fn grants_proper(model: &Model, g: RightRecord) -> bool
    ensures { Decides result (Principal (lists_of model.now) g.principal × Stands (lists_of model.now) g.entity) }
{
    is_principal(model, g.principal) && stands(model, g.entity)
}

fn joins_proper(model: &Model, m: Member) -> bool
    ensures { Decides result (Is (lists_of model.now) Account m.account × Is (lists_of model.now) Role m.role) }
{
    is_kind(model, m.account, Kind::Account) && is_kind(model, m.role, Kind::Role)
}

// Whether all that an action names stands and fits its place.
pub fn is_proper(model: &Model, action: Action) -> bool
    ensures { Decides result (Proper (lists_of model.now) action) }
{
    match action {
        Action::Call(y) => is_object(model, y),
        Action::Grant(g) => grants_proper(model, g),
        Action::Join(m) => joins_proper(model, m),
    }
}
