// One step of a saturation: it is done where it is allowed and adds something.
ghost use Rattle.std.specs.Prelude.{Decides};
ghost use Rattle.access.specs.Lists.{◌∈◌, Lists};
ghost use Rattle.runs.specs.Runs.{doer_of};
ghost use Rattle.runs.specs.Turns.{Tried};
ghost use Rattle.session.specs.Reached.{state_of};
ghost use Rattle.fitting.specs.Fits.{Opens};
ghost use Rattle.saturation.specs.Progress.{Goes, Grown, Serves, Adds};

use fitting::Actor;
use runs::{Entry, Step};
use session::RunState;

// Whether an account is acted as.
pub fn acts(state: &RunState, account: u8) -> bool
    ensures { (L : Lists) → Goes L state.now → Decides result (account ∈ (state_of L state.now).acted) }
{
    if account >= 96 {
        return false;
    }
    state.marks.acts(account)
}

// Whether an object was entered with an account.
pub fn is_entered(state: &RunState, entry: Entry) -> bool
    ensures { (L : Lists) → Goes L state.now → Decides result (entry ∈ (state_of L state.now).entered) }
{
    if entry.account >= 96 || entry.object.place() >= 96 {
        return false;
    }
    state.marks.entered(entry)
}

// Whether the account that does a step can begin it; of a line that is followed it is known that it stands.
fn opens(state: &RunState, step: Step) -> bool
    ensures { (L : Lists) → Goes L state.now → Tried L step → Decides result (Opens L (state_of L state.now) step) }
{
    match step {
        Step::Switch { actor, .. }
        | Step::Grant { actor, .. }
        | Step::Join { actor, .. }
        | Step::Plant { actor, .. }
        | Step::Call { actor, .. } => acts(state, actor),
        Step::Follow { caller, line } => is_entered(
            state,
            Entry {
                object: line.object,
                account: caller,
            },
        ),
    }
}

// Does a step, if it is allowed and adds something.
pub fn attempt(state: &mut RunState, actor: &Actor, step: Step)
    requires serves { Serves actor.now (doer_of step) state.old }
    requires tried { Tried actor.now.lists step }
    ensures grown { Grown actor.now.lists state.old state.new }
    ensures added { Adds actor.now (state_of actor.now.lists state.old) (state_of actor.now.lists state.new) step }
{
    if !state.marks.has(step) && opens(state, step) && actor.fits(step) {
        state.commit(step);
    }
}
