// The numbers of rights and of senses, and a question by its numbers.
ghost use Rattle.std.specs.Prelude.{◌≡◌};

use access::QuestionNumbers;

pub const SELECT: u8 = 0;

pub const INSERT: u8 = 1;

pub const ALTER: u8 = 4;

pub const EXECUTE: u8 = 5;

pub const IMPERSONATE: u8 = 6;

pub const USE: u8 = 0;

pub const HOLD: u8 = 1;

pub fn question(account: u8, sense: u8, entity: u8, right: u8) -> QuestionNumbers
    ensures { result ≡ record { account = account; sense = sense; entity = entity; right = right } }
{
    QuestionNumbers {
        account,
        sense,
        entity,
        right,
    }
}
