// Lines of the catalogue, followed until that enters nothing more.
ghost use Rattle.std.specs.Prelude.{◌≡◌, ℕ, false};
ghost use Rattle.access.specs.declared.code.Action.TheVariants as action;
ghost use Rattle.access.specs.declared.code.Line.{Line};
ghost use Rattle.access.specs.Bits.{bit};
ghost use Rattle.access.specs.Lists.{◌∈◌, Lists};
ghost use Rattle.runs.specs.declared.steps.Step.TheVariants.{Follow};
ghost use Rattle.runs.specs.Runs.{after, worker};
ghost use Rattle.runs.specs.States.{Part, pair};
ghost use Rattle.session.specs.Models.{lists_of};
ghost use Rattle.session.specs.Reached.{state_of};
ghost use Rattle.saturation.specs.Kept.{Keeps};
ghost use Rattle.saturation.specs.Progress.{Goes, Grown, Done};

use crate::footholds::entrant;
use crate::keeping::KeptRows;
use crate::trying::{attempt, is_entered};
use access::{Action, Line, Object, Runner};
use fitting::Actor;
use grid::without;
use order::Bits;
use runs::{Entry, Step, worker as worker_of};
use session::{Model, RunState};

// The accounts that entered the object of a line, and for which the line can still enter the object that it calls.
fn waiting_to(state: &RunState, line: Line, called: Object) -> u128
    ensures { (L : Lists) → Goes L state.now → line ∈ L.lines → line.action ≡ action.Call called → (v : ℕ) → pair line.object v ∈ (state_of L state.now).entered → bit result v ≡ false → pair called (worker line.runner v) ∈ (state_of L state.now).entered }
{
    let entrants = state.marks.entrants(line.object);
    match line.runner {
        Runner::Caller => without(entrants, state.marks.entrants(called)),
        Runner::Account(account) => {
            if is_entered(
                state,
                Entry {
                    object: called,
                    account,
                },
            ) {
                0
            } else {
                entrants
            }
        }
    }
}

// The accounts that entered the object of a line, and for which it can still add something.
fn waiting(state: &RunState, line: Line) -> u128
    ensures { (L : Lists) → Goes L state.now → line ∈ L.lines → (v : ℕ) → pair line.object v ∈ (state_of L state.now).entered → bit result v ≡ false → Part (after (state_of L state.now) (Follow v line)) (state_of L state.now) }
{
    match line.action {
        Action::Call(called) => waiting_to(state, line, called),
        _ => state.marks.entrants(line.object),
    }
}

// Follows a line for an account, if it entered the object and whom the line runs under may do its action.
fn follow(model: &Model, state: &mut RunState, kept: &mut KeptRows, caller: u8, line: Line)
    requires goes { Goes (lists_of model.now) state.old }
    requires keeps { Keeps (lists_of model.now) (state_of (lists_of model.now) state.old) kept.old }
    requires listed { line ∈ (lists_of model.now).lines }
    ensures grown { Grown (lists_of model.now) state.old state.new }
    ensures keeps { Keeps (lists_of model.now) (state_of (lists_of model.now) state.new) kept.new }
    ensures done { Done (lists_of model.now) (state_of (lists_of model.now) state.old) (state_of (lists_of model.now) state.new) (Follow caller line) }
{
    let entry = Entry {
        object: line.object,
        account: caller,
    };
    if !is_entered(state, entry) {
        return;
    }
    let rows = kept.rows(model, state, worker_of(line.runner, caller));
    let actor = Actor { model, rows: &rows };
    attempt(state, &actor, Step::Follow { caller, line });
}

// Follows a line for each account that entered its object.
fn follow_for_each(model: &Model, state: &mut RunState, kept: &mut KeptRows, line: Line)
    requires goes { Goes (lists_of model.now) state.old }
    requires keeps { Keeps (lists_of model.now) (state_of (lists_of model.now) state.old) kept.old }
    requires listed { line ∈ (lists_of model.now).lines }
    ensures grown { Grown (lists_of model.now) state.old state.new }
    ensures keeps { Keeps (lists_of model.now) (state_of (lists_of model.now) state.new) kept.new }
    ensures done { (v : ℕ) → Done (lists_of model.now) (state_of (lists_of model.now) state.old) (state_of (lists_of model.now) state.new) (Follow v line) }
{
    for v in Bits(waiting(state, line)) {
        follow(model, state, kept, v as u8, line);
    }
}

// Follows a line that runs under an account, whoever entered its object: for one it adds what it adds for any.
fn follow_for_one(model: &Model, state: &mut RunState, kept: &mut KeptRows, line: Line)
    requires goes { Goes (lists_of model.now) state.old }
    requires keeps { Keeps (lists_of model.now) (state_of (lists_of model.now) state.old) kept.old }
    requires listed { line ∈ (lists_of model.now).lines }
    requires runs { (u v : ℕ) → worker line.runner u ≡ worker line.runner v }
    ensures grown { Grown (lists_of model.now) state.old state.new }
    ensures keeps { Keeps (lists_of model.now) (state_of (lists_of model.now) state.new) kept.new }
    ensures done { (v : ℕ) → Done (lists_of model.now) (state_of (lists_of model.now) state.old) (state_of (lists_of model.now) state.new) (Follow v line) }
{
    if waiting(state, line) != 0
        && let Some(caller) = entrant(state, line.object)
    {
        follow(model, state, kept, caller, line);
    }
}

// Follows a line for all accounts that entered its object.
fn follow_line(model: &Model, state: &mut RunState, kept: &mut KeptRows, line: Line)
    requires goes { Goes (lists_of model.now) state.old }
    requires keeps { Keeps (lists_of model.now) (state_of (lists_of model.now) state.old) kept.old }
    requires listed { line ∈ (lists_of model.now).lines }
    ensures grown { Grown (lists_of model.now) state.old state.new }
    ensures keeps { Keeps (lists_of model.now) (state_of (lists_of model.now) state.new) kept.new }
    ensures done { (v : ℕ) → Done (lists_of model.now) (state_of (lists_of model.now) state.old) (state_of (lists_of model.now) state.new) (Follow v line) }
{
    match line.runner {
        Runner::Caller => follow_for_each(model, state, kept, line),
        Runner::Account(_) => follow_for_one(model, state, kept, line),
    }
}

// Follows each line, one after the other.
fn follow_each(model: &Model, state: &mut RunState, kept: &mut KeptRows)
    requires goes { Goes (lists_of model.now) state.old }
    requires keeps { Keeps (lists_of model.now) (state_of (lists_of model.now) state.old) kept.old }
    ensures grown { Grown (lists_of model.now) state.old state.new }
    ensures keeps { Keeps (lists_of model.now) (state_of (lists_of model.now) state.new) kept.new }
    ensures done { (v : ℕ) (l : Line) → l ∈ (lists_of model.now).lines → Done (lists_of model.now) (state_of (lists_of model.now) state.old) (state_of (lists_of model.now) state.new) (Follow v l) }
{
    for line in model.lines() {
        follow_line(model, state, kept, *line);
    }
}

// Follows each line, the last one first.
fn follow_back(model: &Model, state: &mut RunState, kept: &mut KeptRows)
    requires goes { Goes (lists_of model.now) state.old }
    requires keeps { Keeps (lists_of model.now) (state_of (lists_of model.now) state.old) kept.old }
    ensures grown { Grown (lists_of model.now) state.old state.new }
    ensures keeps { Keeps (lists_of model.now) (state_of (lists_of model.now) state.new) kept.new }
{
    let lines = model.lines();
    let count = lines.len();
    for i in 0..count {
        follow_line(model, state, kept, lines[count - 1 - i]);
    }
}

// Follows lines until none enters anything, in both directions, since lines may lead to others before or after them.
pub fn follow_all(model: &Model, state: &mut RunState, kept: &mut KeptRows)
    requires goes { Goes (lists_of model.now) state.old }
    requires keeps { Keeps (lists_of model.now) (state_of (lists_of model.now) state.old) kept.old }
    ensures grown { Grown (lists_of model.now) state.old state.new }
    ensures keeps { Keeps (lists_of model.now) (state_of (lists_of model.now) state.new) kept.new }
    ensures done { (v : ℕ) (l : Line) → l ∈ (lists_of model.now).lines → Done (lists_of model.now) (state_of (lists_of model.now) state.new) (state_of (lists_of model.now) state.new) (Follow v l) }
{
    loop {
        let before = state.steps.len();
        follow_each(model, state, kept);
        follow_back(model, state, kept);
        if state.steps.len() == before {
            return;
        }
    }
}
