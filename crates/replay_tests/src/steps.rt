// Short names for steps.
use access::{Action, Line, Member, Object, Right, RightRecord, Runner};
use examples::TRIGGERS;
use runs::Step;

// A line in the triggers that grants impersonate on account 3 to a principal.
pub fn trap(runner: Runner, principal: u8, option: bool) -> Line {
    let record = RightRecord {
        principal,
        entity: 3,
        right: Right::Impersonate,
        option,
    };
    Line {
        object: TRIGGERS,
        runner,
        action: Action::Grant(record),
    }
}

pub fn switch(actor: u8, to: u8) -> Step {
    Step::Switch { actor, to }
}

// Grants a right without the option.
pub fn grant(actor: u8, principal: u8, entity: u8, right: Right) -> Step {
    let record = RightRecord {
        principal,
        entity,
        right,
        option: false,
    };
    Step::Grant { actor, record }
}

pub fn join(actor: u8, account: u8, role: u8) -> Step {
    let member = Member { account, role };
    Step::Join { actor, member }
}

pub fn call(actor: u8, object: Object) -> Step {
    Step::Call { actor, object }
}

pub fn plant(actor: u8, line: Line) -> Step {
    Step::Plant { actor, line }
}

pub fn follow(caller: u8, line: Line) -> Step {
    Step::Follow { caller, line }
}
