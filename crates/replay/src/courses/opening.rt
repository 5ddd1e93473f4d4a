// Who does a step, and whether that account is acted as, or the pair entered.
ghost use Rattle.std.specs.Prelude.{◌≡◌, Decides};
ghost use Rattle.access.specs.Lists.{◌∈◌};
ghost use Rattle.runs.specs.Runs.{doer_of, LineStands};
ghost use Rattle.fitting.specs.Fits.{Opens};
ghost use Rattle.replay.specs.Situations.{state_in};

use crate::courses::Course;
use access::{Line, is_in};
use runs::{Entry, Step, worker};

// The account that does a step.
pub fn doer(step: Step) -> u8
    ensures { result ≡ doer_of step }
{
    match step {
        Step::Switch { actor, .. }
        | Step::Grant { actor, .. }
        | Step::Join { actor, .. }
        | Step::Plant { actor, .. }
        | Step::Call { actor, .. } => actor,
        Step::Follow { caller, line } => worker(line.runner, caller),
    }
}

#[tactic(auto, using(fitting::proofs::Finding::listed))]
impl Course<'_> {
    // Whether an account is acted as.
    pub fn acts(&self, account: u8) -> bool
        ensures { Decides result (account ∈ (state_in self.now).acted) }
    {
        is_in(&self.state.acted, &account)
    }

    // Whether an object was entered with an account.
    fn entered(&self, entry: Entry) -> bool
        ensures { Decides result (entry ∈ (state_in self.now).entered) }
    {
        is_in(&self.state.entered, &entry)
    }

    // Whether a line is the catalogue's.
    fn is_listed(&self, line: Line) -> bool
        ensures { Decides result (line ∈ self.now.lists.lines) }
    {
        is_in(self.model.lines(), &line)
    }

    // Whether a line was planted.
    fn planted(&self, line: Line) -> bool
        ensures { Decides result (line ∈ (state_in self.now).planted) }
    {
        is_in(&self.state.planted, &line)
    }

    // Whether a line stands in its object.
    fn line_stands(&self, line: Line) -> bool
        ensures { Decides result (LineStands self.now.lists (state_in self.now) line) }
    {
        self.is_listed(line) || self.planted(line)
    }

    // Whether the account that does a step can begin it.
    pub fn opens(&self, step: Step) -> bool
        ensures { Decides result (Opens self.now.lists (state_in self.now) step) }
    {
        match step {
            Step::Switch { actor, .. }
            | Step::Grant { actor, .. }
            | Step::Join { actor, .. }
            | Step::Plant { actor, .. }
            | Step::Call { actor, .. } => self.acts(actor),
            Step::Follow { caller, line } => {
                let entry = Entry {
                    object: line.object,
                    account: caller,
                };
                self.entered(entry) && self.line_stands(line)
            }
        }
    }
}
