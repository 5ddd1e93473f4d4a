// Turns of accounts, until none adds anything.
ghost use Rattle.std.specs.Prelude.{◌≡◌, ℕ, ◌≤◌, length};
ghost use Rattle.access.specs.declared.code.Object.{Object};
ghost use Rattle.access.specs.declared.entities.Kind.TheVariants.{Account};
ghost use Rattle.access.specs.Lists.{◌∈◌};
ghost use Rattle.runs.specs.declared.steps.Entry.{Entry};
ghost use Rattle.runs.specs.Laws.{Tells};
ghost use Rattle.runs.specs.Runs.{Run};
ghost use Rattle.runs.specs.Standing.{Is};
ghost use Rattle.runs.specs.States.{start, pair};
ghost use Rattle.runs.specs.Turns.{Turned};
ghost use Rattle.session.specs.Models.{lists_of};
ghost use Rattle.session.specs.Reached.{state_of};
ghost use Rattle.saturation.specs.Kept.{Keeps};
ghost use Rattle.saturation.specs.Progress.{steps_of, Goes, Grown, Serves, Began, Taken, Lent, Foothold};

use crate::following::follow_all;
use crate::keeping::KeptRows;
use crate::lending::lends;
use crate::stepping::steps;
use crate::taking::takes;
use crate::trying::acts;
use fitting::Actor;
use session::{Model, RunState};

// Plants what adds something.
fn plants(state: &mut RunState, actor: &Actor, account: u8)
    requires serves { Serves actor.now account state.old }
    requires acted { account ∈ (state_of actor.now.lists state.old).acted }
    ensures grown { Grown actor.now.lists state.old state.new }
    ensures taken { (n : Entry) → n ∈ (state_of actor.now.lists state.old).entered → Taken actor.now (state_of actor.now.lists state.new) n }
    ensures lent { (x : Object) (n : Entry) (u : ℕ) → Foothold actor.now (state_of actor.now.lists state.old) x n → u ∈ (state_of actor.now.lists state.old).acted → Lent actor.now (state_of actor.now.lists state.new) (pair x u) }
{
    takes(state, actor, account);
    lends(state, actor, account);
}

// Adds all that one account begins, by single steps and by plants.
fn turn(model: &Model, state: &mut RunState, kept: &mut KeptRows, account: u8)
    requires goes { Goes (lists_of model.now) state.old }
    requires keeps { Keeps (lists_of model.now) (state_of (lists_of model.now) state.old) kept.old }
    requires acted { account ∈ (state_of (lists_of model.now) state.old).acted }
    ensures grown { Grown (lists_of model.now) state.old state.new }
    ensures keeps { Keeps (lists_of model.now) (state_of (lists_of model.now) state.new) kept.new }
    ensures began { Began (lists_of model.now) (state_of (lists_of model.now) state.old) (state_of (lists_of model.now) state.new) account }
{
    let rows = kept.rows(model, state, account);
    let actor = Actor { model, rows: &rows };
    steps(state, &actor, account);
    plants(state, &actor, account);
}

// The same, if the account is acted as.
fn turn_of(model: &Model, state: &mut RunState, kept: &mut KeptRows, account: u8)
    requires goes { Goes (lists_of model.now) state.old }
    requires keeps { Keeps (lists_of model.now) (state_of (lists_of model.now) state.old) kept.old }
    ensures grown { Grown (lists_of model.now) state.old state.new }
    ensures keeps { Keeps (lists_of model.now) (state_of (lists_of model.now) state.new) kept.new }
    ensures began { Began (lists_of model.now) (state_of (lists_of model.now) state.old) (state_of (lists_of model.now) state.new) account }
{
    if acts(state, account) {
        turn(model, state, kept, account);
    }
}

// Adds what each account begins, one after the other.
fn turns(model: &Model, state: &mut RunState, kept: &mut KeptRows)
    requires goes { Goes (lists_of model.now) state.old }
    requires keeps { Keeps (lists_of model.now) (state_of (lists_of model.now) state.old) kept.old }
    ensures grown { Grown (lists_of model.now) state.old state.new }
    ensures keeps { Keeps (lists_of model.now) (state_of (lists_of model.now) state.new) kept.new }
    ensures quiet { length (steps_of state.new) ≡ length (steps_of state.old) → (a : ℕ) → Is (lists_of model.now) Account a → Began (lists_of model.now) (state_of (lists_of model.now) state.new) (state_of (lists_of model.now) state.new) a }
{
    for a in 0..96 {
        turn_of(model, state, kept, a);
    }
}

// Adds what each account begins, and what lines add.
fn sweep(model: &Model, state: &mut RunState, kept: &mut KeptRows)
    requires goes { Goes (lists_of model.now) state.old }
    requires keeps { Keeps (lists_of model.now) (state_of (lists_of model.now) state.old) kept.old }
    ensures grown { Grown (lists_of model.now) state.old state.new }
    ensures keeps { Keeps (lists_of model.now) (state_of (lists_of model.now) state.new) kept.new }
    ensures quiet { length (steps_of state.new) ≡ length (steps_of state.old) → (a : ℕ) → Is (lists_of model.now) Account a → Turned (lists_of model.now) (state_of (lists_of model.now) state.new) (state_of (lists_of model.now) state.new) a }
{
    turns(model, state, kept);
    follow_all(model, state, kept);
}

// Opens a session of an account, and does steps until none adds anything.
pub fn saturate(model: &Model, state: &mut RunState, account: u8)
    requires { Is (lists_of model.now) Account account }
    ensures tells { Tells (lists_of model.now) account (state_of (lists_of model.now) state.new) }
    ensures run { Run (lists_of model.now) (start (lists_of model.now) account) state.new.steps.items (state_of (lists_of model.now) state.new) }
    ensures few { length state.new.steps.items ≤ 4096 }
{
    state.open(model, account);
    let mut kept = KeptRows::none();
    loop {
        let before = state.steps.len();
        sweep(model, state, &mut kept);
        if state.steps.len() == before {
            return;
        }
    }
}
