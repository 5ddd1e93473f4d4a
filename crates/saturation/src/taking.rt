// All accounts that the actor can take over.
ghost use Rattle.std.specs.Prelude.{◌≡◌, ℕ, ◌<◌};
ghost use Rattle.access.specs.declared.code.Object.{Object};
ghost use Rattle.runs.specs.declared.steps.Entry.{Entry};
ghost use Rattle.access.specs.Lists.{◌∈◌};
ghost use Rattle.access.specs.Places.{place_of};
ghost use Rattle.runs.specs.States.{pair};
ghost use Rattle.session.specs.Reached.{state_of};
ghost use Rattle.saturation.specs.Progress.{Grown, Serves, Taken};

use crate::objects::{has_objects, objects_at};
use crate::planting::take;
use crate::trying::is_entered;
use access::{Object, Right};
use fitting::Actor;
use grid::without;
use order::Bits;
use runs::Entry;
use session::RunState;

// Takes over the account, if it entered the object.
fn take_entered(state: &mut RunState, actor: &Actor, account: u8, entry: Entry)
    requires serves { Serves actor.now account state.old }
    requires acted { account ∈ (state_of actor.now.lists state.old).acted }
    ensures grown { Grown actor.now.lists state.old state.new }
    ensures taken { entry ∈ (state_of actor.now.lists state.old).entered → Taken actor.now (state_of actor.now.lists state.new) entry }
{
    if is_entered(state, entry) {
        take(state, actor, account, entry);
    }
}

// Takes over every account that entered an object; who is acted as is taken over already.
fn takes_from(state: &mut RunState, actor: &Actor, account: u8, object: Object)
    requires serves { Serves actor.now account state.old }
    requires acted { account ∈ (state_of actor.now.lists state.old).acted }
    ensures grown { Grown actor.now.lists state.old state.new }
    ensures taken { (v : ℕ) → v < 96 → pair object v ∈ (state_of actor.now.lists state.old).entered → Taken actor.now (state_of actor.now.lists state.new) (pair object v) }
{
    let entrants = state.marks.entrants(object);
    for v in Bits(without(entrants, state.marks.actors())) {
        let entry = Entry {
            object,
            account: v as u8,
        };
        take_entered(state, actor, account, entry);
    }
}

// Takes over every account that entered an object of an entity.
fn takes_at(state: &mut RunState, actor: &Actor, account: u8, entity: u8)
    requires serves { Serves actor.now account state.old }
    requires acted { account ∈ (state_of actor.now.lists state.old).acted }
    ensures grown { Grown actor.now.lists state.old state.new }
    ensures taken { (n : Entry) → n ∈ (state_of actor.now.lists state.old).entered → place_of n.object ≡ entity → Taken actor.now (state_of actor.now.lists state.new) n }
{
    for object in objects_at(entity) {
        takes_from(state, actor, account, object);
    }
}

// The same, if the entity can have objects and the actor can plant in them.
fn takes_if(state: &mut RunState, actor: &Actor, account: u8, entity: u8)
    requires serves { Serves actor.now account state.old }
    requires acted { account ∈ (state_of actor.now.lists state.old).acted }
    ensures grown { Grown actor.now.lists state.old state.new }
    ensures taken { (n : Entry) → n ∈ (state_of actor.now.lists state.old).entered → place_of n.object ≡ entity → Taken actor.now (state_of actor.now.lists state.new) n }
{
    if has_objects(actor.model, entity) && actor.holds(entity, Right::Alter) {
        takes_at(state, actor, account, entity);
    }
}

// Takes over every account that entered an object in which the actor can plant.
pub fn takes(state: &mut RunState, actor: &Actor, account: u8)
    requires serves { Serves actor.now account state.old }
    requires acted { account ∈ (state_of actor.now.lists state.old).acted }
    ensures grown { Grown actor.now.lists state.old state.new }
    ensures taken { (n : Entry) → n ∈ (state_of actor.now.lists state.old).entered → Taken actor.now (state_of actor.now.lists state.new) n }
{
    for e in 0..96 {
        takes_if(state, actor, account, e);
    }
}
