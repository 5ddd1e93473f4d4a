// Steps of a session, read from words and written as words.
use crate::numbers::{read_member, read_object, read_right};
use crate::words::Words;
use access::{Action, Line, Member, Object, Right, RightRecord, Runner, option_listed};
use runs::Step;
use std::fmt;

// Kind 2 is what a session creates, which lines of a catalogue do not name.
fn read_place(words: &mut Words<'_>) -> Option<Object> {
    let numbers = read_object(words)?;
    match (numbers.kind, numbers.right) {
        (2, 0) => Some(Object::Created(numbers.entity)),
        _ => Object::try_from(numbers).ok(),
    }
}

fn read_record(words: &mut Words<'_>) -> Option<RightRecord> {
    let numbers = read_right(words)?;
    Some(RightRecord {
        principal: numbers.principal,
        entity: numbers.entity,
        right: Right::try_from(numbers.right).ok()?,
        option: option_listed(numbers.option).ok()?,
    })
}

fn read_action(words: &mut Words<'_>) -> Option<Action> {
    match words.next_word()? {
        "call" => Some(Action::Call(read_place(words)?)),
        "grant" => Some(Action::Grant(read_record(words)?)),
        "join" => Some(Action::Join(read_member(words)?)),
        _ => None,
    }
}

fn read_planted(words: &mut Words<'_>) -> Option<Line> {
    Some(Line {
        object: read_place(words)?,
        runner: Runner::from(words.number()?),
        action: read_action(words)?,
    })
}

// The step that words are.
pub fn read_step(words: &mut Words<'_>) -> Option<Step> {
    let name = words.next_word()?;
    let actor = words.number()?;
    match name {
        "switch" => Some(Step::Switch {
            actor,
            to: words.number()?,
        }),
        "grant" => Some(Step::Grant {
            actor,
            record: read_record(words)?,
        }),
        "join" => Some(Step::Join {
            actor,
            member: read_member(words)?,
        }),
        "plant" => Some(Step::Plant {
            actor,
            line: read_planted(words)?,
        }),
        "call" => Some(Step::Call {
            actor,
            object: read_place(words)?,
        }),
        "follow" => Some(Step::Follow {
            caller: actor,
            line: read_planted(words)?,
        }),
        _ => None,
    }
}

// What is written as the words that it is read from.
#[derive(Clone, Copy)]
pub struct InWords<T>(pub T);

impl fmt::Display for InWords<Object> {
    fn fmt<W: fmt::Write>(&self, f: &mut fmt::Formatter<W>) -> fmt::Result {
        match self.0 {
            Object::Procedure(entity) => write!(f, "0 {entity} 0"),
            Object::Triggers(entity, event) => {
                let right = u8::from(event.right());
                write!(f, "1 {entity} {right}")
            }
            Object::Created(entity) => write!(f, "2 {entity} 0"),
        }
    }
}

impl fmt::Display for InWords<RightRecord> {
    fn fmt<W: fmt::Write>(&self, f: &mut fmt::Formatter<W>) -> fmt::Result {
        let RightRecord {
            principal,
            entity,
            right,
            option,
        } = self.0;
        let (right, option) = (u8::from(right), u8::from(option));
        write!(f, "{principal} {entity} {right} {option}")
    }
}

impl fmt::Display for InWords<Member> {
    fn fmt<W: fmt::Write>(&self, f: &mut fmt::Formatter<W>) -> fmt::Result {
        let Member { account, role } = self.0;
        write!(f, "{account} {role}")
    }
}

impl fmt::Display for InWords<Action> {
    fn fmt<W: fmt::Write>(&self, f: &mut fmt::Formatter<W>) -> fmt::Result {
        match self.0 {
            Action::Call(object) => write!(f, "call {}", InWords(object)),
            Action::Grant(record) => write!(f, "grant {}", InWords(record)),
            Action::Join(member) => write!(f, "join {}", InWords(member)),
        }
    }
}

impl fmt::Display for InWords<Line> {
    fn fmt<W: fmt::Write>(&self, f: &mut fmt::Formatter<W>) -> fmt::Result {
        let (object, action) = (InWords(self.0.object), InWords(self.0.action));
        let runner = u8::from(self.0.runner);
        write!(f, "{object} {runner} {action}")
    }
}

impl fmt::Display for InWords<Step> {
    fn fmt<W: fmt::Write>(&self, f: &mut fmt::Formatter<W>) -> fmt::Result {
        match self.0 {
            Step::Switch { actor, to } => write!(f, "switch {actor} {to}"),
            Step::Grant { actor, record } => write!(f, "grant {actor} {}", InWords(record)),
            Step::Join { actor, member } => write!(f, "join {actor} {}", InWords(member)),
            Step::Plant { actor, line } => write!(f, "plant {actor} {}", InWords(line)),
            Step::Call { actor, object } => write!(f, "call {actor} {}", InWords(object)),
            Step::Follow { caller, line } => write!(f, "follow {caller} {}", InWords(line)),
        }
    }
}
