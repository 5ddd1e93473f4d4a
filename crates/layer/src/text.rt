// Changes and responses as text for people.
use crate::changes::{Change, Response};
use std::fmt;

impl fmt::Display for Change {
    fn fmt<W: fmt::Write>(&self, f: &mut fmt::Formatter<W>) -> fmt::Result {
        match self {
            Change::Build(call) => write!(f, "{call}"),
            Change::ProposeRight(numbers) => write!(f, "propose {numbers}"),
            Change::ProposeMember(member) => write!(f, "propose {member}"),
            Change::Withdraw => f.write_str("withdraw"),
        }
    }
}

impl fmt::Display for Response {
    fn fmt<W: fmt::Write>(&self, f: &mut fmt::Formatter<W>) -> fmt::Result {
        match self {
            Response::Answered(Ok(number)) => write!(f, "number {number}"),
            Response::Answered(Err(refusal)) => write!(f, "refused: {refusal}"),
            Response::Withdrawn(true) => f.write_str("the latest proposal is taken back"),
            Response::Withdrawn(false) => f.write_str("there is no proposal"),
        }
    }
}
