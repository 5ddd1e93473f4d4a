// What a session does, one step at a time.
ghost use Rattle.std.proofs.Common.{rules};
ghost use Rattle.std.specs.Prelude.{◌≡◌};
ghost use Rattle.runs.specs.Runs.{worker as worker_of};

use access::{Exact, Line, Member, Object, RightRecord, Runner};

// A step by an account acted as, or a follow of a line from an object that the caller entered.
#[derive(Clone, Copy, PartialEq, Eq)]
pub enum Step {
    Switch { actor: u8, to: u8 },
    Grant { actor: u8, record: RightRecord },
    Join { actor: u8, member: Member },
    Plant { actor: u8, line: Line },
    Call { actor: u8, object: Object },
    Follow { caller: u8, line: Line },
}

// An object that was entered, and the account that it was entered with.
#[derive(Clone, Copy, PartialEq, Eq)]
pub struct Entry {
    pub object: Object,
    pub account: u8,
}

impl Exact for Entry {
    ghost same = { Prim.search rules };
}

// The account that a line runs under, when `caller` entered its object.
pub fn worker(runner: Runner, caller: u8) -> u8
    ensures { result ≡ worker_of runner caller }
{
    match runner {
        Runner::Caller => caller,
        Runner::Account(account) => account,
    }
}
