// The names of kinds, modes, rights and events.
use crate::{Event, Kind, Mode, Right};
use std::fmt;

impl fmt::Display for Kind {
    fn fmt<W: fmt::Write>(&self, f: &mut fmt::Formatter<W>) -> fmt::Result {
        f.write_str(match self {
            Kind::Container => "container",
            Kind::Table => "table",
            Kind::Procedure => "procedure",
            Kind::Account => "account",
            Kind::Role => "role",
        })
    }
}

impl fmt::Display for Mode {
    fn fmt<W: fmt::Write>(&self, f: &mut fmt::Formatter<W>) -> fmt::Result {
        f.write_str(match self {
            Mode::Creator => "creator",
            Mode::Parent => "parent",
        })
    }
}

impl fmt::Display for Right {
    fn fmt<W: fmt::Write>(&self, f: &mut fmt::Formatter<W>) -> fmt::Result {
        f.write_str(match self {
            Right::Select => "select",
            Right::Insert => "insert",
            Right::Update => "update",
            Right::Delete => "delete",
            Right::Alter => "alter",
            Right::Execute => "execute",
            Right::Impersonate => "impersonate",
        })
    }
}

impl fmt::Display for Event {
    fn fmt<W: fmt::Write>(&self, f: &mut fmt::Formatter<W>) -> fmt::Result {
        let right = self.right();
        write!(f, "{right}")
    }
}
