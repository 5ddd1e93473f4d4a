// A plant and what follows it, where that adds something.
ghost use Rattle.access.specs.Lists.{◌∈◌};
ghost use Rattle.session.specs.Reached.{state_of};
ghost use Rattle.saturation.specs.Progress.{Grown, Serves, Taken, Lent, Foothold};

use crate::PUBLIC;
use crate::trying::{acts, is_entered};
use access::{Action, Line, Object, Right, RightRecord, Runner};
use fitting::Actor;
use runs::{Entry, Step};
use session::RunState;

// Takes over an account that entered an object in which the actor can plant.
pub fn take(state: &mut RunState, actor: &Actor, account: u8, entry: Entry)
    requires serves { Serves actor.now account state.old }
    requires acted { account ∈ (state_of actor.now.lists state.old).acted }
    requires entered { entry ∈ (state_of actor.now.lists state.old).entered }
    ensures grown { Grown actor.now.lists state.old state.new }
    ensures taken { Taken actor.now (state_of actor.now.lists state.new) entry }
{
    let to = entry.account;
    let line = Line {
        object: entry.object,
        runner: Runner::Caller,
        action: Action::Grant(RightRecord {
            principal: PUBLIC,
            entity: to,
            right: Right::Impersonate,
            option: true,
        }),
    };
    if acts(state, to) || state.marks.has_right(to, Right::Impersonate) || !actor.plants(line) {
        return;
    }
    state.commit(Step::Plant {
        actor: account,
        line,
    });
    state.commit(Step::Follow { caller: to, line });
    state.commit(Step::Switch { actor: account, to });
}

// Lets an account that the actor can impersonate enter an object, through another of the same owner in which the actor can plant.
pub fn lend(state: &mut RunState, actor: &Actor, account: u8, entry: Entry, lent: Entry)
    requires serves { Serves actor.now account state.old }
    requires acted { account ∈ (state_of actor.now.lists state.old).acted }
    requires foothold { Foothold actor.now (state_of actor.now.lists state.old) lent.object entry }
    requires lent { lent.account ∈ (state_of actor.now.lists state.old).acted }
    ensures grown { Grown actor.now.lists state.old state.new }
    ensures lent { Lent actor.now (state_of actor.now.lists state.new) lent }
{
    let line = Line {
        object: entry.object,
        runner: Runner::Account(lent.account),
        action: Action::Call(lent.object),
    };
    if is_entered(state, lent) || !actor.plants(line) {
        return;
    }
    state.commit(Step::Plant {
        actor: account,
        line,
    });
    state.commit(Step::Follow {
        caller: entry.account,
        line,
    });
}
