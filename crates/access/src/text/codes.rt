// A refusal as its number and values, and what it means.
use crate::Refusal;
use std::error::Error;
use std::fmt;

// A refusal as its number and values alone.
#[derive(Clone, Copy, PartialEq, Eq)]
pub struct RefusalCode(pub Refusal);

impl fmt::Display for RefusalCode {
    fn fmt<W: fmt::Write>(&self, f: &mut fmt::Formatter<W>) -> fmt::Result {
        let number = self.0.number();
        match self.0 {
            Refusal::Unreadable { part, record } => write!(f, "{number} {part} {record}"),
            Refusal::NotAllowed { step } => write!(f, "{number} {step}"),
            _ => write!(f, "{number}"),
        }
    }
}

impl fmt::Display for Refusal {
    fn fmt<W: fmt::Write>(&self, f: &mut fmt::Formatter<W>) -> fmt::Result {
        let code = RefusalCode(*self);
        let meaning = match self {
            Refusal::NotListed => "a number that is not listed or does not stand",
            Refusal::WrongKind => "a kind that does not fit its place",
            Refusal::NotGiven => "a parent or an owner that the rules do not give",
            Refusal::Circular => "a link that closes a circle",
            Refusal::Full => "no place is left",
            Refusal::NoRoom => "too little room was lent",
            Refusal::Unreadable { .. } => "an image that does not read",
            Refusal::NotAllowed { .. } => "a step that is not allowed",
        };
        write!(f, "{code}, {meaning}")
    }
}

impl Error for Refusal {}
