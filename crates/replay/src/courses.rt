// A run as far as it has come, and what it allows next.
ghost use Rattle.std.specs.Prelude.{◌≡◌, ℕ, ◌+◌, ◌<◌, true, [], ◌∷◌, ◌++◌, Decides};
ghost use Rattle.access.specs.Lists.{◌∈◌, Lists};
ghost use Rattle.runs.specs.Rights.{Holds};
ghost use Rattle.runs.specs.Runs.{Allowed, after};
ghost use Rattle.runs.specs.States.{State, start};
ghost use Rattle.session.specs.Models.{lists_of};
ghost use Rattle.session.specs.Reached.{Filled, state_of};
ghost use Rattle.fitting.specs.Smalls.{Small};
ghost use Rattle.replay.specs.Situations.{state_in};
ghost use Rattle.replay.specs.Keeping.{SeenTells, RowsOf, SameRecords};

use crate::courses::opening::doer;
use access::{Action, Line, Right};
use fitting::{Actor, tells};
use runs::Step;
use session::{Model, Rows, RunState};

mod opening;

// The rows of an account.
#[derive(Clone, Copy)]
pub struct Seen {
    account: u8,
    rows: Rows,
}

// A run over a loaded catalogue, and the rows that were asked for last, while they tell of its state.
#[derive(Drop)]
pub struct Course<'a> {
    model: &'a Model,
    state: &'a mut RunState,
    seen: Option<Seen>,
}

impl<'a> std::marker::Model for Course<'a> {
    ghost use Rattle.session.specs.Models.{lists_of};
    ghost use Rattle.replay.specs.Situations.{Situation};

    ghost Value = { Situation };

    ghost view = { λ c. record { lists = lists_of c.model.now; came = c.state.now } };

    ghost use Rattle.session.specs.Reached.{state_of};
    ghost use Rattle.replay.specs.Keeping.{Keeps};

    ghost invariant = { λ c. Keeps (lists_of c.model.now) (state_of (lists_of c.model.now) c.state.now) c.seen };
}

// Whether a step adds no record, so that rows tell of the state after it too.
fn keeps_records(step: Step) -> bool
    ensures { result ≡ true → SameRecords step }
{
    matches!(
        step,
        Step::Switch { .. }
            | Step::Plant { .. }
            | Step::Call { .. }
            | Step::Follow {
                line: Line {
                    action: Action::Call(_),
                    ..
                },
                ..
            }
    )
}

// Drops the rows that are kept, unless they tell of the state after a step too.
#[tactic(auto, using(crate::proofs::Playing::seen_stays))]
fn keep_over(seen: &mut Option<Seen>, step: Step)
    ensures { (L : Lists) (S : State) → SeenTells L S seen.old → SeenTells L (after S step) seen.new }
{
    if !keeps_records(step) {
        *seen = None;
    }
}

// Makes the rows that are kept those of an account, so that there are some.
// Kept: that an account is below 96 is a clause; a type for such numbers would reach into every step.
fn look(seen: &mut Option<Seen>, model: &Model, state: &RunState, account: u8)
    requires small { account < 96 }
    requires kept { SeenTells (lists_of model.now) (state_of (lists_of model.now) state.now) seen.old }
    ensures { RowsOf (lists_of model.now) (state_of (lists_of model.now) state.now) account seen.new }
{
    if matches!(seen, Some(kept) if kept.account == account) {
        return;
    }
    let rows = model.rows(&state.grants, &state.joins, account);
    *seen = Some(Seen { account, rows });
}

impl<'a> Course<'a> {
    // The run in which an account opens a session.
    pub fn open(model: &'a Model, state: &'a mut RunState, account: u8) -> Self
        requires { account < 96 }
        ensures lists { result.lists ≡ lists_of model.now }
        ensures state { state_in result ≡ start (lists_of model.now) account }
        ensures steps { result.came.steps.items ≡ [] }
        ensures few { Filled result.came 0 }
    {
        state.open(model, account);
        Course {
            model,
            state,
            seen: None,
        }
    }

    // A run that has come to a state.
    pub fn over(model: &'a Model, state: &'a mut RunState) -> Self
        requires { Small (state_of (lists_of model.now) state.old) }
        ensures lists { result.lists ≡ lists_of model.now }
        ensures came { result.came ≡ state.old }
    {
        Course {
            model,
            state,
            seen: None,
        }
    }

    // The steps so far.
    pub fn steps(&self) -> &[Step]
        ensures { result.now ≡ self.now.came.steps.items }
    {
        &self.state.steps
    }

    // Whether an account holds a right.
    pub fn holds(&mut self, account: u8, n: u8, right: Right) -> bool
        requires small { account < 96 }
        ensures same { self.new ≡ self.old }
        ensures told { Decides result (Holds self.old.lists (state_in self.old) account n right) }
    {
        look(&mut self.seen, self.model, self.state, account);
        match &self.seen {
            Some(seen) => tells(&seen.rows.holds, n, right),
            None => false,
        }
    }

    // Whether some account acted as holds a right.
    pub fn some_holds(&mut self, n: u8, right: Right) -> bool
        ensures same { self.new ≡ self.old }
        ensures told { Decides result ((v : ℕ) × (v ∈ (state_in self.old).acted) × Holds self.old.lists (state_in self.old) v n right) }
    {
        // The invariant of a run, which this opens, says that whoever is acted as has a number below 96.
        let _ = &self.model;
        // Kept: tried with `any` and with `find`, and the proof did not close, since each question changes the rows that are kept.
        for v in 0..96u8 {
            if self.acts(v) && self.holds(v, n, right) {
                return true;
            }
        }
        false
    }

    // Whether a step is allowed.
    pub fn allows(&mut self, step: Step) -> bool
        ensures same { self.new ≡ self.old }
        ensures told { Decides result (Allowed self.old.lists (state_in self.old) step) }
    {
        if !self.opens(step) {
            return false;
        }
        look(&mut self.seen, self.model, self.state, doer(step));
        match &self.seen {
            Some(seen) => Actor {
                model: self.model,
                rows: &seen.rows,
            }
            .fits(step),
            None => false,
        }
    }

    // Adds a step.
    #[tactic(auto, using(fitting::proofs::Smalls::after_small))]
    pub fn add(&mut self, step: Step)
        requires allowed { Allowed self.old.lists (state_in self.old) step }
        requires room { Filled self.old.came 4095 }
        ensures lists { self.new.lists ≡ self.old.lists }
        ensures state { state_in self.new ≡ after (state_in self.old) step }
        ensures steps { self.new.came.steps.items ≡ self.old.came.steps.items ++ step ∷ [] }
        ensures few { (n : ℕ) → Filled self.old.came n → Filled self.new.came (n + 1) }
    {
        keep_over(&mut self.seen, step);
        self.state.commit(step);
    }
}
