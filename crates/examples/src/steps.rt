// The steps by which account 4 of the laboratory comes to impersonate account 3.
use access::{Action, Event, Line, Object, Right, RightRecord, Runner};
use runs::Step;

pub const TRIGGERS: Object = Object::Triggers(6, Event::Inserted);

// The line of the laboratory.
pub const CALLED: Line = Line {
    object: Object::Procedure(7),
    runner: Runner::Account(3),
    action: Action::Call(TRIGGERS),
};

// Whoever sets off the triggers lets account 4 impersonate account 3.
pub const PLANTED: Line = Line {
    object: TRIGGERS,
    runner: Runner::Caller,
    action: Action::Grant(RightRecord {
        principal: 4,
        entity: 3,
        right: Right::Impersonate,
        option: false,
    }),
};

pub const STEPS: [Step; 4] = [
    Step::Call {
        actor: 4,
        object: Object::Procedure(7),
    },
    Step::Follow {
        caller: 4,
        line: CALLED,
    },
    Step::Plant {
        actor: 4,
        line: PLANTED,
    },
    Step::Follow {
        caller: 3,
        line: PLANTED,
    },
];
