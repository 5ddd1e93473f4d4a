// Calls as text for people.
use crate::calls::Call;
use access::Member;
use std::fmt;

impl fmt::Display for Call {
    fn fmt<W: fmt::Write>(&self, f: &mut fmt::Formatter<W>) -> fmt::Result {
        match self {
            Call::Declare(numbers) => write!(f, "declare {numbers}"),
            Call::Link(link) => write!(f, "link {link}"),
            Call::Grant(numbers) => write!(f, "grant {numbers}"),
            Call::Join(Member { account, role }) => write!(
                f,
                "join account {account} to role {role}"
            ),
            Call::Line(numbers) => write!(f, "line {numbers}"),
        }
    }
}
