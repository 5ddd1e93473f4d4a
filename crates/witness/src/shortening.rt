// Leaves out the steps of a run that are not missed.
ghost use Rattle.std.specs.Prelude.{◌≡◌, ◌<◌, ◌≤◌, vec_len, MatchBool};
ghost use Rattle.session.specs.Models.{lists_of};
ghost use Rattle.witness.specs.Lean.{ComesTo, LeanTo};

use crate::plays::try_without;
use replay::Question;
use session::{Model, RunState, StepList};

// Tries to do without each chunk of `size` steps, from the last to the first, and says whether any was left out.
fn pass(
    model: &Model,
    state: &mut RunState,
    question: &Question,
    list: &mut StepList,
    size: usize,
) -> bool
    requires opener { question.now.account < 96 }
    requires comes { ComesTo (lists_of model.now) question.now list.old.items.items }
    requires few { vec_len list.old.items ≤ 4096 }
    requires some { 1 ≤ size }
    ensures comes { ComesTo (lists_of model.now) question.now list.new.items.items }
    ensures few { vec_len list.new.items ≤ vec_len list.old.items }
    ensures passed { MatchBool result (vec_len list.new.items < vec_len list.old.items) (size ≡ 1 → LeanTo (lists_of model.now) question.now list.new.items.items) }
{
    let mut any = false;
    let mut end = list.items.len();
    while end > 0 {
        let from = end.saturating_sub(size);
        if try_without(model, state, question, list, from, end - from) {
            any = true;
        }
        end = from;
    }
    any
}

// Leaves out steps of a run that ends with what the question asks, until each is missed: chunks first, then one at a time.
pub fn shorten(model: &Model, state: &mut RunState, question: &Question, list: &mut StepList)
    requires opener { question.now.account < 96 }
    requires comes { ComesTo (lists_of model.now) question.now list.old.items.items }
    requires few { vec_len list.old.items ≤ 4096 }
    ensures comes { ComesTo (lists_of model.now) question.now list.new.items.items }
    ensures few { vec_len list.new.items ≤ vec_len list.old.items }
    ensures lean { LeanTo (lists_of model.now) question.now list.new.items.items }
{
    let mut size = list.items.len().div_ceil(2);
    while size > 1 {
        pass(model, state, question, list, size);
        size /= 2;
    }
    while pass(model, state, question, list, 1) {}
}
