// Steps that are played one after the other, without those that are not allowed.
ghost use Rattle.std.specs.Prelude.{◌≡◌, ℕ, ◌+◌, ◌-◌, ◌<◌, ◌≤◌, ◌∷◌, [], length, vec_len, MatchBool};
ghost use Rattle.session.specs.Models.{lists_of};
ghost use Rattle.session.specs.Reached.{Filled};
ghost use Rattle.witness.specs.Plays.{Played, left_out};
ghost use Rattle.witness.specs.Lean.{ComesTo, Shorter, Needed};

use replay::{Course, Question};
use runs::Step;
use session::{Model, RunState, StepList};

// Does a step, if it is allowed.
fn play_step(course: &mut Course<'_>, step: Step)
    requires room { Filled course.old.came 4095 }
    ensures played { Played course.old (step ∷ []) course.new }
    ensures few { (n : ℕ) → Filled course.old.came n → Filled course.new.came (n + 1) }
{
    if course.allows(step) {
        course.add(step);
    }
}

// Does one step after the other, and skips each that is not allowed.
fn play(course: &mut Course<'_>, steps: &[Step])
    requires few { length steps.now ≤ 4096 }
    requires room { Filled course.old.came (4096 - length steps.now) }
    ensures played { Played course.old steps.now course.new }
    ensures few { (n : ℕ) → Filled course.old.came n → Filled course.new.came (n + length steps.now) }
{
    for step in steps {
        play_step(course, *step);
    }
}

// Plays a list without `count` of its steps from step `from` on.
fn play_without(course: &mut Course<'_>, steps: &[Step], from: usize, count: usize)
    requires few { length steps.now ≤ 4096 }
    requires within { from + count ≤ length steps.now }
    requires room { Filled course.old.came 0 }
    ensures { Played course.old (left_out from count steps.now) course.new }
{
    play(course, &steps[..from]);
    play(course, &steps[from + count..]);
}

// Tries to do without `count` steps of a list from step `from` on, and without those that are then not allowed.
pub(crate) fn try_without(
    model: &Model,
    state: &mut RunState,
    question: &Question,
    list: &mut StepList,
    from: usize,
    count: usize,
) -> bool
    requires opener { question.now.account < 96 }
    requires comes { ComesTo (lists_of model.now) question.now list.old.items.items }
    requires few { vec_len list.old.items ≤ 4096 }
    requires within { from + count ≤ vec_len list.old.items }
    ensures { MatchBool result (Shorter (lists_of model.now) question.now from count list.old.items.items list.new.items.items) (Needed (lists_of model.now) question.now from count list.old.items.items list.new.items.items) }
{
    let mut course = Course::open(model, state, question.account);
    play_without(&mut course, &list.items, from, count);
    if !course.answers(question) {
        return false;
    }
    list.copy(course.steps());
    true
}
