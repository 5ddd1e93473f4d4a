// Replay of a list of steps.
ghost use Rattle.std.specs.Prelude.{◌≡◌, ◌<◌, ◌≤◌, length, Decides, MatchOption};
ghost use Rattle.access.specs.Codes.{coded};
ghost use Rattle.catalogue.specs.Sound.{Sound};
ghost use Rattle.runs.specs.Runs.{Run};
ghost use Rattle.session.specs.Models.{lists_of};
ghost use Rattle.session.specs.Reached.{Filled};
ghost use Rattle.replay.specs.Situations.{state_in};
ghost use Rattle.replay.specs.Questions.{sense_number};
ghost use Rattle.replay.specs.Replays.{Stops, HeldBy, Ends, Replays};

use crate::courses::Course;
use crate::questions::{Question, Sense, judge_question};
use access::{QuestionNumbers, Refusal};
use catalogue::Catalogue;
use runs::Step;
use session::Workspace;

impl Course<'_> {
    // Does one step after the other, up to the first that is not allowed, and returns the number of that one.
    #[tactic(auto, using(crate::proofs::Playing::stops_here))]
    fn play(&mut self, steps: &[Step]) -> Option<u16>
        requires few { length steps.now ≤ 4096 }
        requires filled { Filled self.old.came 0 }
        ensures lists { self.new.lists ≡ self.old.lists }
        ensures outcome { MatchOption result (Run self.old.lists (state_in self.old) steps.now (state_in self.new)) (λ k. Stops self.old.lists (state_in self.old) steps.now k) }
    {
        for (i, step) in steps.iter().enumerate() {
            if !self.allows(*step) {
                return Some(i as u16);
            }
            self.add(*step);
        }
        None
    }

    // Whether the right that is asked for stands.
    // Kept: that an account is below 96 is a clause; a type for such numbers would reach into every step.
    pub fn answers(&mut self, question: &Question) -> bool
        requires opener { question.now.account < 96 }
        ensures same { self.new ≡ self.old }
        ensures told { Decides result (HeldBy self.old.lists (state_in self.old) question.now.account (sense_number question.now.sense) question.now.entity question.now.right) }
    {
        match question.sense {
            Sense::Use => self.some_holds(question.entity, question.right),
            Sense::Hold => self.holds(question.account, question.entity, question.right),
        }
    }
}

// Opens a session of the account, does the steps, and looks for the right.
fn run_question(
    workspace: &mut Workspace,
    question: &Question,
    steps: &[Step],
) -> Result<(), Refusal>
    requires opener { question.now.account < 96 }
    requires few { length steps.now ≤ 4096 }
    ensures { Ends (lists_of workspace.old.model) question.now.account (sense_number question.now.sense) question.now.entity question.now.right steps.now (coded result) }
{
    let mut course = Course::open(&workspace.model, &mut workspace.state, question.account);
    if let Some(step) = course.play(steps) {
        return Err(Refusal::NotAllowed { step });
    }
    if course.answers(question) {
        Ok(())
    } else {
        Err(Refusal::NotAllowed {
            step: steps.len() as u16,
        })
    }
}

// Says whether the steps are a run of a session of the account that ends with the right: sense 0 is use, 1 is hold.
pub fn replay<C: Catalogue>(
    workspace: &mut Workspace,
    catalogue: &C,
    numbers: QuestionNumbers,
    steps: &[Step],
) -> Result<(), Refusal>
    requires { Sound (C.meaning catalogue.now) }
    ensures { Replays (C.meaning catalogue.now) numbers.account numbers.sense numbers.entity numbers.right steps.now (coded result) }
{
    workspace.model.load(catalogue);
    let question = judge_question(workspace.model.entities(), numbers)?;
    if steps.len() > 4096 {
        return Err(Refusal::NoRoom);
    }
    run_question(workspace, &question, steps)
}
