// Code that runs in a session: where it stands, under which account it runs, and what it does.
ghost use Rattle.std.specs.Prelude.{◌≡◌};
ghost use Rattle.access.specs.Codes.{Names};
ghost use Rattle.access.specs.Numbers.{event_at, event_right, runner_at, runner_number, object_at, object_numbers};
ghost use Rattle.access.specs.Places.{place_of};

use crate::numbers::ObjectNumbers;
use crate::refusals::Refusal;
use crate::rights::{Right, RightRecord};
use crate::roles::Member;

// What a table's triggers wait for.
#[derive(Clone, Copy, PartialEq, Eq)]
pub enum Event {
    Inserted,
    Updated,
    Deleted,
}

// The event of the right of number 1, 2 or 3.
impl TryFrom<u8> for Event {
    type Error = Refusal;

    ghost try_from_gives = { λ n r. Names (event_at n) r };

    fn try_from(n: u8) -> Result<Event, Refusal> {
        match n {
            1 => Ok(Event::Inserted),
            2 => Ok(Event::Updated),
            3 => Ok(Event::Deleted),
            _ => Err(Refusal::NotListed),
        }
    }
}

impl Event {
    // The right that sets the event off.
    pub fn right(self) -> Right
        ensures { result ≡ event_right self }
    {
        match self {
            Event::Inserted => Right::Insert,
            Event::Updated => Right::Update,
            Event::Deleted => Right::Delete,
        }
    }
}

// Where code stands: a procedure, the triggers of a table for an event, what a session creates in a container.
#[derive(Clone, Copy, PartialEq, Eq)]
pub enum Object {
    Procedure(u8),
    Triggers(u8, Event),
    Created(u8),
}

// The object that the numbers name, where they are listed.
impl TryFrom<ObjectNumbers> for Object {
    type Error = Refusal;

    ghost try_from_gives = { λ n r. Names (object_at n) r };

    fn try_from(n: ObjectNumbers) -> Result<Object, Refusal> {
        match (n.kind, n.right) {
            (0, 0) => Ok(Object::Procedure(n.entity)),
            (1, right) => Ok(Object::Triggers(n.entity, Event::try_from(right)?)),
            _ => Err(Refusal::NotListed),
        }
    }
}

impl Object {
    // The numbers of an object; what a session creates has none.
    // Kept: `TryFrom` is no plainer, since it would want an error where there is just nothing to give.
    pub fn numbers(self) -> Option<ObjectNumbers>
        ensures { result ≡ object_numbers self }
    {
        match self {
            Object::Procedure(entity) => Some(ObjectNumbers {
                kind: 0,
                entity,
                right: 0,
            }),
            Object::Triggers(entity, event) => Some(ObjectNumbers {
                kind: 1,
                entity,
                right: u8::from(event.right()),
            }),
            Object::Created(_) => None,
        }
    }

    // The entity that the object belongs to.
    pub fn place(self) -> u8
        ensures { result ≡ place_of self }
    {
        match self {
            Object::Procedure(entity) => entity,
            Object::Triggers(entity, _) => entity,
            Object::Created(entity) => entity,
        }
    }
}

// The account that a line runs under: that of the caller, or a fixed one.
// Kept: `Option<u8>` is no plainer, since a line without an account of its own does run under one, the caller's.
#[derive(Clone, Copy, PartialEq, Eq)]
pub enum Runner {
    Caller,
    Account(u8),
}

// The runner of a number: 255 is the caller, any other an account.
impl From<u8> for Runner {
    ghost from_gives = { λ n x. x ≡ runner_at n };

    fn from(n: u8) -> Runner {
        match n {
            255 => Runner::Caller,
            _ => Runner::Account(n),
        }
    }
}

impl From<Runner> for u8 {
    ghost from_gives = { λ x n. n ≡ runner_number x };

    fn from(x: Runner) -> u8 {
        match x {
            Runner::Caller => 255,
            Runner::Account(n) => n,
        }
    }
}

#[derive(Clone, Copy, PartialEq, Eq)]
pub enum Action {
    Call(Object),
    Grant(RightRecord),
    Join(Member),
}

// In a catalogue the action of a line is a call.
#[derive(Clone, Copy, PartialEq, Eq)]
pub struct Line {
    pub object: Object,
    pub runner: Runner,
    pub action: Action,
}
