// Which entity a declaration makes, or why no book takes it.
ghost use Rattle.std.specs.Prelude.{◌≡◌, length, Some};
ghost use Rattle.std.specs.List.{slice_get};
ghost use Rattle.access.specs.Codes.{coded};
ghost use Rattle.access.specs.Lists.{stands, fits, is_container, is_principal};
ghost use Rattle.catalogue.specs.Judgements.{judged_entity, judged_kind, count_kind, limit_of, parent_given, owner_given, mode_for, own_number, entity_listed, entity_fits, given};

use crate::tables::{kind_at, stands};
use access::{Entity, EntityNumbers, Kind, Mode, Refusal};

fn limit_of(kind: Kind) -> usize
    ensures { result ≡ limit_of kind }
{
    match kind {
        Kind::Procedure => 32,
        _ => 16,
    }
}

fn count_kind(entities: &[Entity], kind: Kind) -> usize
    ensures { result ≡ count_kind kind entities.now }
{
    entities.iter().filter(|e| e.kind == kind).count()
}

fn mode_for(kind: Kind, mode: Mode) -> bool
    ensures { result ≡ mode_for kind (Some mode) }
{
    mode == Mode::Creator || kind == Kind::Container
}

// Whether the rules give the entity its parent, which is given too.
fn parent_given(x: Entity, parent: Entity) -> bool
    ensures { result ≡ parent_given x.kind x.parent parent }
{
    match x.kind {
        Kind::Container => true,
        Kind::Table | Kind::Procedure => parent.mode == Mode::Parent,
        Kind::Account | Kind::Role => x.parent == 0,
    }
}

// Whether the rules give the entity, of number `own`, its owner.
fn owner_given(x: Entity, own: usize, parent: Entity) -> bool
    ensures { result ≡ owner_given x.kind own x.owner parent }
{
    match x.kind {
        Kind::Container => parent.mode == Mode::Creator || x.owner == parent.owner,
        Kind::Table | Kind::Procedure => x.owner == parent.owner,
        Kind::Account => x.owner as usize == own,
        Kind::Role => true,
    }
}

// Whether the entity is an account that owns itself, when it comes next.
fn own_number(entities: &[Entity], x: Entity) -> bool
    ensures { result ≡ own_number entities.now x.owner x.kind }
{
    x.kind == Kind::Account && x.owner as usize == entities.len()
}

// Kept: the entities and the next one as two parameters; a struct of both for five private tests is no plainer.
fn entity_listed(entities: &[Entity], x: Entity) -> bool
    ensures { result ≡ entity_listed entities.now x.parent x.owner (Some x.mode) x.kind }
{
    mode_for(x.kind, x.mode)
        && stands(entities, x.parent)
        && (stands(entities, x.owner) || own_number(entities, x))
}

fn container_at(entities: &[Entity], n: u8) -> bool
    ensures { result ≡ fits is_container entities.now n }
{
    kind_at(entities, n) == Some(Kind::Container)
}

fn principal_at(entities: &[Entity], n: u8) -> bool
    ensures { result ≡ fits is_principal entities.now n }
{
    kind_at(entities, n).is_some_and(Kind::is_principal)
}

fn entity_fits(entities: &[Entity], x: Entity) -> bool
    ensures { result ≡ entity_fits entities.now x.parent x.owner x.kind }
{
    container_at(entities, x.parent) && (principal_at(entities, x.owner) || own_number(entities, x))
}

fn entity_given(entities: &[Entity], x: Entity) -> bool
    ensures { result ≡ given x.kind (length entities.now) x.parent x.owner (slice_get entities.now x.parent) }
{
    entities.get(x.parent as usize).is_some_and(|parent| {
        parent_given(x, *parent) && owner_given(x, entities.len(), *parent)
    })
}

// The entity, or why a book with these entities does not take it next.
fn judge_next(entities: &[Entity], x: Entity) -> Result<Entity, Refusal>
    ensures { coded result ≡ judged_kind entities.now x.parent x.owner (Some x.mode) (Some x.kind) }
{
    if !entity_listed(entities, x) {
        return Err(Refusal::NotListed);
    }
    if !entity_fits(entities, x) {
        return Err(Refusal::WrongKind);
    }
    if !entity_given(entities, x) {
        return Err(Refusal::NotGiven);
    }
    if count_kind(entities, x.kind) >= limit_of(x.kind) {
        return Err(Refusal::Full);
    }
    Ok(x)
}

// The entity that the numbers name, or why a book with these entities does not take it next.
pub fn judge_entity(entities: &[Entity], numbers: EntityNumbers) -> Result<Entity, Refusal>
    ensures { coded result ≡ judged_entity entities.now numbers.kind numbers.parent numbers.owner numbers.mode }
{
    let kind = Kind::try_from(numbers.kind)?;
    let mode = Mode::try_from(numbers.mode)?;
    judge_next(
        entities,
        Entity {
            kind,
            parent: numbers.parent,
            owner: numbers.owner,
            mode,
        },
    )
}
