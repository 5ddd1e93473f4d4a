// What calls and images name by numbers, listed or not.
// Kept: plain numbers, since a call takes any byte and refuses one that is not listed.

// An object as a line of a catalogue names it: kind 0 for a procedure or 1 for triggers, entity, and right (0 for a procedure).
#[derive(Clone, Copy, PartialEq, Eq)]
pub struct ObjectNumbers {
    pub kind: u8,
    pub entity: u8,
    pub right: u8,
}

// An entity to declare.
#[derive(Clone, Copy, PartialEq, Eq)]
pub struct EntityNumbers {
    pub kind: u8,
    pub parent: u8,
    pub owner: u8,
    pub mode: u8,
}

// A right to grant or to propose; the option is 0, without, or 1, with.
#[derive(Clone, Copy, PartialEq, Eq)]
pub struct RightNumbers {
    pub principal: u8,
    pub entity: u8,
    pub right: u8,
    pub option: u8,
}

// A line of code: where it stands, whom it runs under (255 for the caller), and what it calls.
#[derive(Clone, Copy, PartialEq, Eq)]
pub struct LineNumbers {
    pub object: ObjectNumbers,
    pub runner: u8,
    pub called: ObjectNumbers,
}

// A question about the sessions of an account: the sense is 0 for use, 1 for hold.
#[derive(Clone, Copy, PartialEq, Eq)]
pub struct QuestionNumbers {
    pub account: u8,
    pub sense: u8,
    pub entity: u8,
    pub right: u8,
}
