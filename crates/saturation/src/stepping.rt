// All the single steps of one account, tried one after the other.
ghost use Rattle.std.specs.Prelude.{◌≡◌, ℕ, ◌<◌, true, false};
ghost use Rattle.access.specs.declared.code.Object.{Object};
ghost use Rattle.access.specs.declared.rights.Right.{Right};
ghost use Rattle.access.specs.declared.roles.Member.{Member};
ghost use Rattle.access.specs.Bits.{bit};
ghost use Rattle.access.specs.Lists.{public};
ghost use Rattle.access.specs.Numbers.{right_number};
ghost use Rattle.access.specs.Places.{place_of};
ghost use Rattle.runs.specs.declared.steps.Step.TheVariants.{Switch, Grant, Join, Call};
ghost use Rattle.runs.specs.Rights.{right_record, member_record};
ghost use Rattle.lookup.specs.Tables.{SmallMember};
ghost use Rattle.session.specs.Reached.{state_of};
ghost use Rattle.fitting.specs.Fits.{Tells};
ghost use Rattle.saturation.specs.Among.{AllAccounts};
ghost use Rattle.saturation.specs.Progress.{Grown, Serves, Adds};

use crate::PUBLIC;
use crate::numbers::accounts_of;
use crate::objects::{has_objects, objects_at};
use crate::trying::{attempt, is_entered};
use access::{Kind, Member, Object, Right, RightRecord, RightSet};
use fitting::{Actor, is_kind};
use grid::without;
use order::Bits;
use runs::{Entry, Step};
use session::RunState;

const RIGHTS: [Right; 7] = [
    Right::Select,
    Right::Insert,
    Right::Update,
    Right::Delete,
    Right::Alter,
    Right::Execute,
    Right::Impersonate,
];

// Tries to switch to each account that is not acted as.
fn switches(state: &mut RunState, actor: &Actor, account: u8, accounts: u128)
    requires serves { Serves actor.now account state.old }
    requires all { AllAccounts actor.now.lists accounts }
    ensures grown { Grown actor.now.lists state.old state.new }
    ensures added { (v : ℕ) → v < 96 → Adds actor.now (state_of actor.now.lists state.old) (state_of actor.now.lists state.new) (Switch account v) }
{
    for v in Bits(without(accounts, state.marks.actors())) {
        let step = Step::Switch {
            actor: account,
            to: v as u8,
        };
        attempt(state, actor, step);
    }
}

// Whether the actor may grant a right on an entity that is not in the set.
fn grants_more(actor: &Actor, entity: u8, given: RightSet) -> bool
    ensures { (r : Right) → result ≡ false → Tells actor.now.grants entity r → bit given.bits (right_number r) ≡ true }
{
    actor.rows.grants.at(entity as usize).union(given) != given
}

// Tries to give everyone each right on an entity, with the option, if there is one to give.
fn grants_on(state: &mut RunState, actor: &Actor, account: u8, entity: u8)
    requires { Serves actor.now account state.old }
    ensures grown { Grown actor.now.lists state.old state.new }
    ensures added { (r : Right) → Adds actor.now (state_of actor.now.lists state.old) (state_of actor.now.lists state.new) (Grant account (right_record public entity r true)) }
{
    if !grants_more(actor, entity, state.marks.rights(entity)) {
        return;
    }
    for right in RIGHTS {
        let record = RightRecord {
            principal: PUBLIC,
            entity,
            right,
            option: true,
        };
        let step = Step::Grant {
            actor: account,
            record,
        };
        attempt(state, actor, step);
    }
}

// Tries to give everyone each right on each entity, with the option.
fn grants(state: &mut RunState, actor: &Actor, account: u8)
    requires { Serves actor.now account state.old }
    ensures grown { Grown actor.now.lists state.old state.new }
    ensures added { (e : ℕ) (r : Right) → e < 96 → Adds actor.now (state_of actor.now.lists state.old) (state_of actor.now.lists state.new) (Grant account (right_record public e r true)) }
{
    for entity in 0..96 {
        grants_on(state, actor, account, entity);
    }
}

// Tries to put each account into a role that is not in it.
fn joins_each(state: &mut RunState, actor: &Actor, account: u8, accounts: u128, role: u8)
    requires serves { Serves actor.now account state.old }
    requires all { AllAccounts actor.now.lists accounts }
    ensures grown { Grown actor.now.lists state.old state.new }
    ensures added { (v : ℕ) → v < 96 → Adds actor.now (state_of actor.now.lists state.old) (state_of actor.now.lists state.new) (Join account (member_record v role)) }
{
    for v in Bits(without(accounts, state.marks.members(role))) {
        let member = Member {
            account: v as u8,
            role,
        };
        let step = Step::Join {
            actor: account,
            member,
        };
        attempt(state, actor, step);
    }
}

// Tries to put each account into a role, if what stands at the number is one that may be altered.
fn joins_in(state: &mut RunState, actor: &Actor, account: u8, accounts: u128, role: u8)
    requires serves { Serves actor.now account state.old }
    requires all { AllAccounts actor.now.lists accounts }
    ensures grown { Grown actor.now.lists state.old state.new }
    ensures added { (v : ℕ) → v < 96 → Adds actor.now (state_of actor.now.lists state.old) (state_of actor.now.lists state.new) (Join account (member_record v role)) }
{
    if is_kind(actor.model, role, Kind::Role) && actor.holds(role, Right::Alter) {
        joins_each(state, actor, account, accounts, role);
    }
}

// Tries to put each account into each role.
fn joins(state: &mut RunState, actor: &Actor, account: u8, accounts: u128)
    requires serves { Serves actor.now account state.old }
    requires all { AllAccounts actor.now.lists accounts }
    ensures grown { Grown actor.now.lists state.old state.new }
    ensures added { (j : Member) → SmallMember j → Adds actor.now (state_of actor.now.lists state.old) (state_of actor.now.lists state.new) (Join account j) }
{
    for role in 0..96 {
        joins_in(state, actor, account, accounts, role);
    }
}

// Tries to call an object, if the actor may enter it and has not.
fn calls_one(state: &mut RunState, actor: &Actor, account: u8, object: Object)
    requires { Serves actor.now account state.old }
    ensures grown { Grown actor.now.lists state.old state.new }
    ensures added { Adds actor.now (state_of actor.now.lists state.old) (state_of actor.now.lists state.new) (Call account object) }
{
    if actor.enters(object) && !is_entered(state, Entry { object, account }) {
        let step = Step::Call {
            actor: account,
            object,
        };
        attempt(state, actor, step);
    }
}

// Tries to call each object of an entity.
fn calls_at(state: &mut RunState, actor: &Actor, account: u8, entity: u8)
    requires { Serves actor.now account state.old }
    ensures grown { Grown actor.now.lists state.old state.new }
    ensures added { (x : Object) → place_of x ≡ entity → Adds actor.now (state_of actor.now.lists state.old) (state_of actor.now.lists state.new) (Call account x) }
{
    for object in objects_at(entity) {
        calls_one(state, actor, account, object);
    }
}

// Whether the actor holds any right on an entity.
fn holds_any(actor: &Actor, entity: u8) -> bool
    ensures { (r : Right) → Tells actor.now.holds entity r → result ≡ true }
{
    actor.rows.holds.at(entity as usize) != RightSet::empty()
}

// The same, if the entity can have objects and the actor holds any right on it.
fn calls_in(state: &mut RunState, actor: &Actor, account: u8, entity: u8)
    requires { Serves actor.now account state.old }
    ensures grown { Grown actor.now.lists state.old state.new }
    ensures added { (x : Object) → place_of x ≡ entity → Adds actor.now (state_of actor.now.lists state.old) (state_of actor.now.lists state.new) (Call account x) }
{
    if holds_any(actor, entity) && has_objects(actor.model, entity) {
        calls_at(state, actor, account, entity);
    }
}

// Tries to call each object.
fn calls(state: &mut RunState, actor: &Actor, account: u8)
    requires { Serves actor.now account state.old }
    ensures grown { Grown actor.now.lists state.old state.new }
    ensures added { (x : Object) → place_of x < 96 → Adds actor.now (state_of actor.now.lists state.old) (state_of actor.now.lists state.new) (Call account x) }
{
    for entity in 0..96 {
        calls_in(state, actor, account, entity);
    }
}

// Tries each single step that an account begins.
pub fn steps(state: &mut RunState, actor: &Actor, account: u8)
    requires { Serves actor.now account state.old }
    ensures grown { Grown actor.now.lists state.old state.new }
    ensures switch { (v : ℕ) → v < 96 → Adds actor.now (state_of actor.now.lists state.old) (state_of actor.now.lists state.new) (Switch account v) }
    ensures grant { (e : ℕ) (r : Right) → e < 96 → Adds actor.now (state_of actor.now.lists state.old) (state_of actor.now.lists state.new) (Grant account (right_record public e r true)) }
    ensures join { (j : Member) → SmallMember j → Adds actor.now (state_of actor.now.lists state.old) (state_of actor.now.lists state.new) (Join account j) }
    ensures call { (x : Object) → place_of x < 96 → Adds actor.now (state_of actor.now.lists state.old) (state_of actor.now.lists state.new) (Call account x) }
{
    let accounts = accounts_of(actor.model);
    switches(state, actor, account, accounts);
    grants(state, actor, account);
    joins(state, actor, account, accounts);
    calls(state, actor, account);
}
