// A list of steps in memory that is taken when it is made.
ghost use Rattle.std.specs.Prelude.{◌≡◌, ◌≤◌, [], length, vec_capacity, IfOk};

use runs::Step;
use std::alloc::{AllocError, Global};

// There is room for 4,096 steps.
#[derive(Drop)]
pub struct StepList {
    pub items: Vec<Step>,
    ghost room: { 4096 ≤ vec_capacity items },
}

impl StepList {
    // A list of no steps. It takes the memory for 4,096, so that no later call wants more.
    pub fn new(heap: Global) -> Result<StepList, AllocError>
        ensures { IfOk result (λ l. l.items.items ≡ []) }
    {
        let items = Vec::with_capacity(heap, 4096)?;
        Ok(StepList { items })
    }

    // Makes it a copy of other steps.
    pub fn copy(&mut self, steps: &[Step])
        requires { length steps.now ≤ 4096 }
        ensures { self.new.items.items ≡ steps.now }
    {
        self.items.clear();
        for step in steps {
            self.items.push_reserved(*step);
        }
    }
}
