// The steps by which a session of an account comes to a right.
ghost use Rattle.std.specs.Prelude.{◌≤◌, List, IfOk, IfSome, MatchBool};
ghost use Rattle.access.specs.declared.entities.Kind.TheVariants.{Account};
ghost use Rattle.access.specs.Codes.{coded};
ghost use Rattle.catalogue.specs.Sound.{Sound};
ghost use Rattle.runs.specs.declared.steps.Step.{Step};
ghost use Rattle.runs.specs.Standing.{Is};
ghost use Rattle.session.specs.Models.{lists_of};
ghost use Rattle.witness.specs.Lean.{ComesTo, Found};
ghost use Rattle.witness.specs.Witnesses.{Witnesses};

use crate::handing::put;
use crate::shortening::shorten;
use access::{QuestionNumbers, Refusal};
use catalogue::Catalogue;
use replay::{Course, Question, judge_question};
use runs::Step;
use saturation::saturate;
use session::{Model, RunState, StepList, Workspace};

// How many places a room for steps has at least.
const STEPS: usize = 4096;

// Finds steps for a question, and says whether there are any.
fn find(model: &Model, state: &mut RunState, question: &Question, list: &mut StepList) -> bool
    requires { Is (lists_of model.now) Account question.now.account }
    ensures { MatchBool result (Found (lists_of model.now) question.now list.new.items.items) ((steps : List Step) → ComesTo (lists_of model.now) question.now steps → ⊥) }
{
    saturate(model, state, question.account);
    let mut course = Course::over(model, state);
    if !course.answers(question) {
        return false;
    }
    list.copy(course.steps());
    shorten(model, state, question, list);
    true
}

// Writes steps by which a session of the account comes to the right, and returns how many; none where no session comes to it.
pub fn witness<C: Catalogue>(
    workspace: &mut Workspace,
    catalogue: &C,
    numbers: QuestionNumbers,
    room: &mut [Step],
) -> Result<Option<usize>, Refusal>
    requires { Sound (C.meaning catalogue.now) }
    ensures answer { Witnesses (C.meaning catalogue.now) numbers.account numbers.sense numbers.entity numbers.right room.old room.new (coded result) }
    ensures few { IfOk result (λ found. IfSome found (λ count. count ≤ 4096)) }
{
    workspace.model.load(catalogue);
    let question = judge_question(workspace.model.entities(), numbers)?;
    if room.len() < STEPS {
        return Err(Refusal::NoRoom);
    }
    let found = find(
        &workspace.model,
        &mut workspace.state,
        &question,
        &mut workspace.list,
    );
    if !found {
        return Ok(None);
    }
    Ok(Some(put(&workspace.list, room)))
}
