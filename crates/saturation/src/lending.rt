// All that the actor can lend: whom it may impersonate enters what it can reach.
ghost use Rattle.std.specs.Prelude.{◌≡◌, ℕ, ◌<◌, true, ◌⊎◌};
ghost use Rattle.access.specs.declared.code.Object.{Object};
ghost use Rattle.access.specs.Bits.{bit};
ghost use Rattle.access.specs.Lists.{◌∈◌, Lists};
ghost use Rattle.access.specs.Places.{place_of};
ghost use Rattle.runs.specs.declared.steps.Entry.{Entry};
ghost use Rattle.runs.specs.States.{pair};
ghost use Rattle.session.specs.Reached.{state_of};
ghost use Rattle.saturation.specs.Among.{HasOwner};
ghost use Rattle.saturation.specs.Progress.{Goes, Grown, Serves, Lent, Foothold};

use crate::footholds::{foothold_for, owners_of_footholds};
use crate::numbers::owner_is_in;
use crate::objects::{has_objects, objects_at};
use crate::planting::lend;
use crate::trying::acts;
use access::Object;
use fitting::{Actor, is_object};
use grid::without;
use order::Bits;
use runs::Entry;
use session::RunState;

// Lets an account enter the object, if it is acted as.
fn lends_one(state: &mut RunState, actor: &Actor, account: u8, foothold: Entry, lent: Entry)
    requires serves { Serves actor.now account state.old }
    requires acted { account ∈ (state_of actor.now.lists state.old).acted }
    requires foothold { Foothold actor.now (state_of actor.now.lists state.old) lent.object foothold }
    ensures grown { Grown actor.now.lists state.old state.new }
    ensures lent { lent.account ∈ (state_of actor.now.lists state.old).acted → Lent actor.now (state_of actor.now.lists state.new) lent }
{
    if acts(state, lent.account) {
        lend(state, actor, account, foothold, lent);
    }
}

// The accounts that are acted as and have not entered the object.
fn missing(state: &RunState, object: Object) -> u128
    ensures { (L : Lists) (v : ℕ) → Goes L state.now → place_of object < 96 → v < 96 → v ∈ (state_of L state.now).acted → (bit result v ≡ true) ⊎ (pair object v ∈ (state_of L state.now).entered) }
{
    without(state.marks.actors(), state.marks.entrants(object))
}

// Lets every account that is acted as enter the object.
fn lends_each(state: &mut RunState, actor: &Actor, account: u8, foothold: Entry, object: Object)
    requires serves { Serves actor.now account state.old }
    requires acted { account ∈ (state_of actor.now.lists state.old).acted }
    requires foothold { Foothold actor.now (state_of actor.now.lists state.old) object foothold }
    ensures grown { Grown actor.now.lists state.old state.new }
    ensures lent { (u : ℕ) → u < 96 → u ∈ (state_of actor.now.lists state.old).acted → Lent actor.now (state_of actor.now.lists state.new) (pair object u) }
{
    for u in Bits(missing(state, object)) {
        let lent = Entry {
            object,
            account: u as u8,
        };
        lends_one(state, actor, account, foothold, lent);
    }
}

// The same, if there is a way and somebody is missing.
fn lends_to(state: &mut RunState, actor: &Actor, account: u8, object: Object)
    requires serves { Serves actor.now account state.old }
    requires acted { account ∈ (state_of actor.now.lists state.old).acted }
    ensures grown { Grown actor.now.lists state.old state.new }
    ensures lent { (n : Entry) (u : ℕ) → Foothold actor.now (state_of actor.now.lists state.old) object n → u < 96 → u ∈ (state_of actor.now.lists state.old).acted → Lent actor.now (state_of actor.now.lists state.new) (pair object u) }
{
    if missing(state, object) != 0
        && is_object(actor.model, object)
        && let Some(foothold) = foothold_for(state, actor, object)
    {
        lends_each(state, actor, account, foothold, object);
    }
}

// Lets every account that is acted as enter the objects of an entity.
fn lends_at(state: &mut RunState, actor: &Actor, account: u8, entity: u8)
    requires serves { Serves actor.now account state.old }
    requires acted { account ∈ (state_of actor.now.lists state.old).acted }
    ensures grown { Grown actor.now.lists state.old state.new }
    ensures lent { (x : Object) (n : Entry) (u : ℕ) → place_of x ≡ entity → Foothold actor.now (state_of actor.now.lists state.old) x n → u < 96 → u ∈ (state_of actor.now.lists state.old).acted → Lent actor.now (state_of actor.now.lists state.new) (pair x u) }
{
    for object in objects_at(entity) {
        lends_to(state, actor, account, object);
    }
}

// The same, if the entity can have objects and its owner is one of these.
fn lends_if(state: &mut RunState, actor: &Actor, account: u8, owners: u128, entity: u8)
    requires serves { Serves actor.now account state.old }
    requires acted { account ∈ (state_of actor.now.lists state.old).acted }
    ensures grown { Grown actor.now.lists state.old state.new }
    ensures lent { (x : Object) (n : Entry) (u : ℕ) → place_of x ≡ entity → HasOwner actor.now.lists owners entity → Foothold actor.now (state_of actor.now.lists state.old) x n → u < 96 → u ∈ (state_of actor.now.lists state.old).acted → Lent actor.now (state_of actor.now.lists state.new) (pair x u) }
{
    if has_objects(actor.model, entity) && owner_is_in(actor.model, owners, entity) {
        lends_at(state, actor, account, entity);
    }
}

// Lets every account that is acted as enter every object.
pub fn lends(state: &mut RunState, actor: &Actor, account: u8)
    requires serves { Serves actor.now account state.old }
    requires acted { account ∈ (state_of actor.now.lists state.old).acted }
    ensures grown { Grown actor.now.lists state.old state.new }
    ensures lent { (x : Object) (n : Entry) (u : ℕ) → Foothold actor.now (state_of actor.now.lists state.old) x n → u ∈ (state_of actor.now.lists state.old).acted → Lent actor.now (state_of actor.now.lists state.new) (pair x u) }
{
    let owners = owners_of_footholds(state, actor);
    if owners == 0 {
        return;
    }
    for e in 0..96 {
        lends_if(state, actor, account, owners, e);
    }
}
