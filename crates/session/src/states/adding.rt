// How the state of a run begins, and what each step adds to it.
ghost use Rattle.std.specs.Prelude.{◌≡◌, ℕ, ◌+◌, ◌<◌, [], ◌∷◌, ◌++◌, IfOk};
ghost use Rattle.access.specs.Lists.{Lists};
ghost use Rattle.runs.specs.States.{State, start as opened, done as after_action};
ghost use Rattle.runs.specs.Runs.{after};
ghost use Rattle.lookup.specs.Tables.{SmallStep, Marked};
ghost use Rattle.session.specs.Models.{lists_of};
ghost use Rattle.session.specs.Reached.{state_of, Kept, Filled};

use crate::models::Model;
use crate::states::RunState;
use access::Action;
use lookup::Marks;
use runs::{Entry, Step, worker};
use std::alloc::{AllocError, Global};

impl RunState {
    // A state to which no step has added. It takes the memory for 4,096 steps, so that no later call wants more.
    pub fn new(heap: Global) -> Result<RunState, AllocError>
        ensures { IfOk result (λ s. Filled s 0) }
    {
        let acted = Vec::with_capacity(heap, 4097)?;
        let grants = Vec::with_capacity(heap, 4096)?;
        let joins = Vec::with_capacity(heap, 4096)?;
        let planted = Vec::with_capacity(heap, 4096)?;
        let entered = Vec::with_capacity(heap, 4096)?;
        let steps = Vec::with_capacity(heap, 4096)?;
        Ok(RunState {
            opener: 0,
            acted,
            grants,
            joins,
            planted,
            entered,
            steps,
            marks: Marks::open(0, &[], &[]),
        })
    }

    // The state in which an account opens a session on a catalogue.
    pub fn open(&mut self, model: &Model, account: u8)
        requires small { account < 96 }
        ensures opener { self.new.opener ≡ account }
        ensures state { (L : Lists) → state_of L self.new ≡ opened L account }
        ensures steps { self.new.steps.items ≡ [] }
        ensures few { Filled self.new 0 }
        ensures marked { Marked self.new.marks (opened (lists_of model.now) account) }
    {
        self.opener = account;
        self.acted.clear();
        self.grants.clear();
        self.joins.clear();
        self.planted.clear();
        self.entered.clear();
        self.steps.clear();
        self.acted.push_reserved(account);
        self.marks = Marks::open(account, model.rights(), model.members());
    }

    // Adds what an account's action adds.
    #[tactic(auto, using(crate::proofs::Reaching::before_push))]
    fn act(&mut self, account: u8, action: Action)
        requires { Kept self.old 4095 }
        ensures opener { self.new.opener ≡ self.old.opener }
        ensures state { (L : Lists) → state_of L self.new ≡ after_action (state_of L self.old) account action }
        ensures steps { self.new.steps ≡ self.old.steps }
        ensures marks { self.new.marks ≡ self.old.marks }
        ensures few { (n : ℕ) → Kept self.old n → Kept self.new (n + 1) }
    {
        match action {
            Action::Call(object) => self.entered.push_reserved(Entry { object, account }),
            Action::Grant(right) => self.grants.push_reserved(right),
            Action::Join(member) => self.joins.push_reserved(member),
        }
    }

    // Adds what a step adds.
    fn add(&mut self, step: Step)
        requires { Kept self.old 4095 }
        ensures opener { self.new.opener ≡ self.old.opener }
        ensures state { (L : Lists) → state_of L self.new ≡ after (state_of L self.old) step }
        ensures steps { self.new.steps ≡ self.old.steps }
        ensures marks { self.new.marks ≡ self.old.marks }
        ensures few { (n : ℕ) → Kept self.old n → Kept self.new (n + 1) }
    {
        match step {
            Step::Switch { to, .. } => self.acted.push_reserved(to),
            Step::Plant { line, .. } => self.planted.push_reserved(line),
            Step::Grant { actor, record } => self.act(actor, Action::Grant(record)),
            Step::Join { actor, member } => self.act(actor, Action::Join(member)),
            Step::Call { actor, object } => self.act(actor, Action::Call(object)),
            Step::Follow { caller, line } => self.act(worker(line.runner, caller), line.action),
        }
    }

    // Adds a step and what it adds, and notes it.
    pub fn commit(&mut self, step: Step)
        requires { Filled self.old 4095 }
        ensures opener { self.new.opener ≡ self.old.opener }
        ensures state { (L : Lists) → state_of L self.new ≡ after (state_of L self.old) step }
        ensures steps { self.new.steps.items ≡ self.old.steps.items ++ step ∷ [] }
        ensures few { (n : ℕ) → Filled self.old n → Filled self.new (n + 1) }
        ensures marked { (S : State) → SmallStep step → Marked self.old.marks S → Marked self.new.marks (after S step) }
    {
        self.add(step);
        self.steps.push_reserved(step);
        self.marks.note(step);
    }
}
