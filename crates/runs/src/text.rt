// A step as text for people.
use crate::steps::Step;
use std::fmt;

impl fmt::Display for Step {
    fn fmt<W: fmt::Write>(&self, f: &mut fmt::Formatter<W>) -> fmt::Result {
        match self {
            Step::Switch { actor, to } => write!(f, "account {actor} switches to account {to}"),
            Step::Grant { actor, record } => write!(f, "account {actor} grants: {record}"),
            Step::Join { actor, member } => write!(f, "account {actor} joins: {member}"),
            Step::Plant { actor, line } => write!(f, "account {actor} plants a line {line}"),
            Step::Call { actor, object } => write!(f, "account {actor} calls {object}"),
            Step::Follow { caller, line } => write!(
                f,
                "for caller {caller}, follow the line {line}"
            ),
        }
    }
}
