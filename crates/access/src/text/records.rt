// Links, rights, members and lines of code as text.
use crate::{Action, Line, Link, Member, Object, RightRecord, Runner};
use std::fmt;

impl fmt::Display for Link {
    fn fmt<W: fmt::Write>(&self, f: &mut fmt::Formatter<W>) -> fmt::Result {
        let lower = self.lower;
        let upper = self.upper;
        write!(f, "role {lower} below role {upper}")
    }
}

impl fmt::Display for RightRecord {
    fn fmt<W: fmt::Write>(&self, f: &mut fmt::Formatter<W>) -> fmt::Result {
        let principal = self.principal;
        let entity = self.entity;
        let right = self.right;
        let option = if self.option {
            ", and may grant it"
        } else {
            ""
        };
        write!(f, "{principal} has {right} on {entity}{option}")
    }
}

impl fmt::Display for Member {
    fn fmt<W: fmt::Write>(&self, f: &mut fmt::Formatter<W>) -> fmt::Result {
        let account = self.account;
        let role = self.role;
        write!(f, "account {account} in role {role}")
    }
}

impl fmt::Display for Object {
    fn fmt<W: fmt::Write>(&self, f: &mut fmt::Formatter<W>) -> fmt::Result {
        match self {
            Object::Procedure(entity) => write!(f, "procedure {entity}"),
            Object::Triggers(entity, event) => write!(f, "the {event} triggers of table {entity}"),
            Object::Created(entity) => write!(f, "what is created in container {entity}"),
        }
    }
}

impl fmt::Display for Runner {
    fn fmt<W: fmt::Write>(&self, f: &mut fmt::Formatter<W>) -> fmt::Result {
        match self {
            Runner::Caller => f.write_str("the caller"),
            Runner::Account(account) => write!(f, "account {account}"),
        }
    }
}

impl fmt::Display for Action {
    fn fmt<W: fmt::Write>(&self, f: &mut fmt::Formatter<W>) -> fmt::Result {
        match self {
            Action::Call(object) => write!(f, "call {object}"),
            Action::Grant(right) => write!(f, "grant: {right}"),
            Action::Join(member) => write!(f, "join: {member}"),
        }
    }
}

impl fmt::Display for Line {
    fn fmt<W: fmt::Write>(&self, f: &mut fmt::Formatter<W>) -> fmt::Result {
        let object = self.object;
        let runner = self.runner;
        let action = self.action;
        write!(f, "in {object}, under {runner}: {action}")
    }
}
