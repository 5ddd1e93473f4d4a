// What a question about sessions works in.
use crate::lists::StepList;
use crate::models::Model;
use crate::states::RunState;
use std::alloc::{AllocError, Global};

// The caller makes it beforehand and lends it. It takes all its memory then, and what a question leaves in it means nothing.
#[derive(Drop)]
pub struct Workspace {
    pub model: Model,
    pub state: RunState,
    pub list: StepList,
}

impl Workspace {
    ghost use Rattle.std.specs.Prelude.{◌≡◌, IfOk};
    ghost use Rattle.access.specs.Lists.{new_lists};
    ghost use Rattle.session.specs.Models.{lists_of};
    ghost use Rattle.session.specs.Reached.{Filled};

    pub fn new(heap: Global) -> Result<Workspace, AllocError>
        ensures model { IfOk result (λ w. lists_of w.model ≡ new_lists) }
        ensures state { IfOk result (λ w. Filled w.state 0) }
    {
        let model = Model::new(heap)?;
        let state = RunState::new(heap)?;
        let list = StepList::new(heap)?;
        Ok(Workspace { model, state, list })
    }
}
