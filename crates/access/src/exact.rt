// Values that are the same wherever they are equal.
ghost use Rattle.std.specs.Prelude.{◌≡◌, true, Decides, Contains};
ghost use Rattle.std.proofs.Common.{rules};
ghost use Rattle.access.specs.Exact.{line_same, right_record_same};

use crate::code::{Action, Event, Line, Object, Runner};
use crate::entities::{Kind, Mode};
use crate::rights::{Right, RightRecord};
use crate::roles::{Link, Member};

// What is equal is the same.
pub trait Exact: Eq {
    ghost same: { (x y : Self) → Self.eq x y ≡ true → x ≡ y };
}

// Kept: an impl for each type, since none may come from a macro of the repository's own.
impl Exact for u8 {
    ghost same = { Prim.search rules };
}

impl Exact for Kind {
    ghost same = { Prim.search rules };
}

impl Exact for Mode {
    ghost same = { Prim.search rules };
}

impl Exact for Right {
    ghost same = { Prim.search rules };
}

impl Exact for Link {
    ghost same = { Prim.search rules };
}

impl Exact for Member {
    ghost same = { Prim.search rules };
}

impl Exact for Event {
    ghost same = { Prim.search rules };
}

impl Exact for Object {
    ghost same = { Prim.search rules };
}

impl Exact for Runner {
    ghost same = { Prim.search rules };
}

impl Exact for Action {
    ghost same = { Prim.search rules };
}

impl Exact for RightRecord {
    ghost same = { right_record_same };
}

impl Exact for Line {
    ghost same = { line_same };
}

// Whether a value is in a list.
pub fn is_in<T: Exact>(list: &[T], x: &T) -> bool
    ensures { Decides result (Contains list.now x.now) }
{
    list.contains(x)
}
