// Which records stand for the same.
ghost use Rattle.std.specs.Prelude.{◌≡◌};
ghost use Rattle.catalogue.specs.Alike.{same_link, same_right, same_member, same_line, same_call};

use crate::tables::Same;
use access::{Action, Line, Link, Member, RightRecord};

impl Same for Link {
    ghost alike = { same_link };

    fn same(&self, other: &Link) -> bool {
        self == other
    }
}

// A right stands by principal, entity and right, whatever its option.
impl Same for RightRecord {
    ghost alike = { same_right };

    fn same(&self, other: &RightRecord) -> bool {
        self.principal == other.principal
            && self.entity == other.entity
            && self.right == other.right
    }
}

impl Same for Member {
    ghost alike = { same_member };

    fn same(&self, other: &Member) -> bool {
        self == other
    }
}

fn same_call(x: Action, y: Action) -> bool
    ensures { result ≡ same_call x y }
{
    match (x, y) {
        (Action::Call(a), Action::Call(b)) => a == b,
        _ => false,
    }
}

impl Same for Line {
    ghost alike = { same_line };

    fn same(&self, other: &Line) -> bool {
        self.object == other.object
            && self.runner == other.runner
            && same_call(self.action, other.action)
    }
}
