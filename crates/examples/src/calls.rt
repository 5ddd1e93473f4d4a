// Building calls by their numbers.
ghost use Rattle.std.specs.Prelude.{◌≡◌};
ghost use Rattle.examples.specs.Calls.{declare, link, grant, join, line, procedure, triggers};

use access::{EntityNumbers, LineNumbers, Link, Member, ObjectNumbers, RightNumbers};
use book::Call;

pub fn declare(kind: u8, parent: u8, owner: u8, mode: u8) -> Call
    ensures { result ≡ declare kind parent owner mode }
{
    Call::Declare(EntityNumbers {
        kind,
        parent,
        owner,
        mode,
    })
}

pub fn link(lower: u8, upper: u8) -> Call
    ensures { result ≡ link lower upper }
{
    Call::Link(Link { lower, upper })
}

pub fn grant(principal: u8, entity: u8, right: u8, option: u8) -> Call
    ensures { result ≡ grant principal entity right option }
{
    Call::Grant(RightNumbers {
        principal,
        entity,
        right,
        option,
    })
}

pub fn join(account: u8, role: u8) -> Call
    ensures { result ≡ join account role }
{
    Call::Join(Member { account, role })
}

pub fn line(object: ObjectNumbers, runner: u8, called: ObjectNumbers) -> Call
    ensures { result ≡ line object runner called }
{
    Call::Line(LineNumbers {
        object,
        runner,
        called,
    })
}

// The numbers of a procedure.
pub fn procedure(entity: u8) -> ObjectNumbers
    ensures { result ≡ procedure entity }
{
    ObjectNumbers {
        kind: 0,
        entity,
        right: 0,
    }
}

// The numbers of the triggers of a table, by the right that sets them off.
pub fn triggers(entity: u8, right: u8) -> ObjectNumbers
    ensures { result ≡ triggers entity right }
{
    ObjectNumbers {
        kind: 1,
        entity,
        right,
    }
}
