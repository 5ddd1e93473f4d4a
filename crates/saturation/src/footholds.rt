// Where an actor can plant a line that somebody follows.
ghost use Rattle.std.specs.Prelude.{◌≡◌, ℕ, ◌<◌, true, MatchOption, Decides};
ghost use Rattle.access.specs.declared.code.Object.{Object};
ghost use Rattle.access.specs.declared.code.Object.TheVariants.{Created};
ghost use Rattle.access.specs.declared.rights.Right.TheVariants.{Alter};
ghost use Rattle.access.specs.Lists.{◌∈◌, Lists};
ghost use Rattle.access.specs.Places.{place_of};
ghost use Rattle.runs.specs.declared.steps.Entry.{Entry};
ghost use Rattle.runs.specs.Standing.{OneOwner};
ghost use Rattle.runs.specs.States.{pair};
ghost use Rattle.session.specs.Reached.{state_of};
ghost use Rattle.fitting.specs.Fits.{Tells};
ghost use Rattle.saturation.specs.Among.{HasOwner};
ghost use Rattle.saturation.specs.Progress.{Goes, Foothold};

use crate::numbers::with_owner;
use crate::objects::objects_at;
use crate::trying::is_entered;
use access::{Object, Right};
use fitting::{Actor, one_owner};
use order::Bits;
use runs::Entry;
use session::RunState;

// An account that entered an object, if there is one.
pub fn entrant(state: &RunState, object: Object) -> Option<u8>
    ensures { (L : Lists) → Goes L state.now → MatchOption result ((v : ℕ) → v < 96 → pair object v ∈ (state_of L state.now).entered → ⊥) (λ v. pair object v ∈ (state_of L state.now).entered) }
{
    for v in Bits(state.marks.entrants(object)) {
        let account = v as u8;
        if is_entered(state, Entry { object, account }) {
            return Some(account);
        }
    }
    None
}

// An entered pair of an object of the entity, if there is one.
fn entry_at(state: &RunState, entity: u8) -> Option<Entry>
    ensures { (L : Lists) → Goes L state.now → MatchOption result ((n : Entry) → n ∈ (state_of L state.now).entered → place_of n.object ≡ entity → ⊥) (λ n. (n ∈ (state_of L state.now).entered) × (place_of n.object ≡ entity)) }
{
    for object in objects_at(entity) {
        if let Some(account) = entrant(state, object) {
            return Some(Entry { object, account });
        }
    }
    None
}

// Whether the actor may alter an entity, whose owner is that of the object.
fn can_plant(actor: &Actor, entity: u8, object: Object) -> bool
    ensures { Decides result (Tells actor.now.holds entity Alter × OneOwner actor.now.lists (Created entity) object) }
{
    actor.holds(entity, Right::Alter) && one_owner(actor.model, Object::Created(entity), object)
}

// An entered pair through whose object the actor can let others enter this one, if there is one.
pub fn foothold_for(state: &RunState, actor: &Actor, object: Object) -> Option<Entry>
    requires { Goes actor.now.lists state.now }
    ensures { MatchOption result ((n : Entry) → Foothold actor.now (state_of actor.now.lists state.now) object n → ⊥) (λ n. Foothold actor.now (state_of actor.now.lists state.now) object n) }
{
    for e in 0..96 {
        if can_plant(actor, e, object)
            && let Some(entry) = entry_at(state, e)
        {
            return Some(entry);
        }
    }
    None
}

// Whether somebody entered an object of the entity, in which the actor can plant.
fn is_foothold(state: &RunState, actor: &Actor, entity: u8) -> bool
    requires { Goes actor.now.lists state.now }
    ensures { (x : Object) (n : Entry) → place_of n.object ≡ entity → Foothold actor.now (state_of actor.now.lists state.now) x n → result ≡ true }
{
    actor.holds(entity, Right::Alter) && entry_at(state, entity).is_some()
}

// The owners of the entities in whose objects the actor can plant, of which somebody entered one.
pub fn owners_of_footholds(state: &RunState, actor: &Actor) -> u128
    requires { Goes actor.now.lists state.now }
    ensures { (x : Object) (n : Entry) → Foothold actor.now (state_of actor.now.lists state.now) x n → HasOwner actor.now.lists result (place_of x) }
{
    let mut owners = 0;
    for e in 0..96 {
        if is_foothold(state, actor, e) {
            owners = with_owner(actor.model, owners, e);
        }
    }
    owners
}
